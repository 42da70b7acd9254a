//! Tuples of up to twelve values that display themselves. Above the cells stand the numbers of the fields.

ghost use Rattle.std.specs.Prelude.{Some, [], ◌∷◌};
ghost use Rattle.tabled_rows.specs.Spelled.{numbers};

use crate::Tabled;
use crate::spelled::{no_texts, numbered, push_text};
use std::alloc::Global;
use std::fmt::Display;
use tabled_border::OutOfMemory;

impl<A: Display> Tabled for (A,) {
    ghost known_headers = { Some (numbers 1) };

    ghost known_fields = { λ values. Some (A.output values.0 ∷ []) };

    fn headers(alloc: Global) -> Result<Vec<String>, OutOfMemory> {
        numbered(alloc, 1)
    }

    fn fields(&self, alloc: Global) -> Result<Vec<String>, OutOfMemory> {
        let mut texts = no_texts(alloc);
        push_text(&mut texts, &self.0)?;
        Ok(texts)
    }
}

impl<A: Display, B: Display> Tabled for (A, B) {
    ghost known_headers = { Some (numbers 2) };

    ghost known_fields = { λ values. Some (A.output values.0 ∷ B.output values.1 ∷ []) };

    fn headers(alloc: Global) -> Result<Vec<String>, OutOfMemory> {
        numbered(alloc, 2)
    }

    fn fields(&self, alloc: Global) -> Result<Vec<String>, OutOfMemory> {
        let mut texts = no_texts(alloc);
        push_text(&mut texts, &self.0)?;
        push_text(&mut texts, &self.1)?;
        Ok(texts)
    }
}

impl<A: Display, B: Display, C: Display> Tabled for (A, B, C) {
    ghost known_headers = { Some (numbers 3) };

    ghost known_fields = { λ values. Some (A.output values.0 ∷ B.output values.1 ∷ C.output values.2 ∷ []) };

    fn headers(alloc: Global) -> Result<Vec<String>, OutOfMemory> {
        numbered(alloc, 3)
    }

    fn fields(&self, alloc: Global) -> Result<Vec<String>, OutOfMemory> {
        let mut texts = no_texts(alloc);
        push_text(&mut texts, &self.0)?;
        push_text(&mut texts, &self.1)?;
        push_text(&mut texts, &self.2)?;
        Ok(texts)
    }
}

impl<A: Display, B: Display, C: Display, D: Display> Tabled for (A, B, C, D) {
    ghost known_headers = { Some (numbers 4) };

    ghost known_fields = { λ values. Some (A.output values.0 ∷ B.output values.1 ∷ C.output values.2 ∷ D.output values.3 ∷ []) };

    fn headers(alloc: Global) -> Result<Vec<String>, OutOfMemory> {
        numbered(alloc, 4)
    }

    fn fields(&self, alloc: Global) -> Result<Vec<String>, OutOfMemory> {
        let mut texts = no_texts(alloc);
        push_text(&mut texts, &self.0)?;
        push_text(&mut texts, &self.1)?;
        push_text(&mut texts, &self.2)?;
        push_text(&mut texts, &self.3)?;
        Ok(texts)
    }
}

impl<A: Display, B: Display, C: Display, D: Display, E: Display> Tabled for (A, B, C, D, E) {
    ghost known_headers = { Some (numbers 5) };

    ghost known_fields = { λ values. Some (A.output values.0 ∷ B.output values.1 ∷ C.output values.2 ∷ D.output values.3 ∷ E.output values.4 ∷ []) };

    fn headers(alloc: Global) -> Result<Vec<String>, OutOfMemory> {
        numbered(alloc, 5)
    }

    fn fields(&self, alloc: Global) -> Result<Vec<String>, OutOfMemory> {
        let mut texts = no_texts(alloc);
        push_text(&mut texts, &self.0)?;
        push_text(&mut texts, &self.1)?;
        push_text(&mut texts, &self.2)?;
        push_text(&mut texts, &self.3)?;
        push_text(&mut texts, &self.4)?;
        Ok(texts)
    }
}

impl<A: Display, B: Display, C: Display, D: Display, E: Display, F: Display> Tabled
    for (A, B, C, D, E, F) {
    ghost known_headers = { Some (numbers 6) };

    ghost known_fields = { λ values. Some (A.output values.0 ∷ B.output values.1 ∷ C.output values.2 ∷ D.output values.3 ∷ E.output values.4 ∷ F.output values.5 ∷ []) };

    fn headers(alloc: Global) -> Result<Vec<String>, OutOfMemory> {
        numbered(alloc, 6)
    }

    fn fields(&self, alloc: Global) -> Result<Vec<String>, OutOfMemory> {
        let mut texts = no_texts(alloc);
        push_text(&mut texts, &self.0)?;
        push_text(&mut texts, &self.1)?;
        push_text(&mut texts, &self.2)?;
        push_text(&mut texts, &self.3)?;
        push_text(&mut texts, &self.4)?;
        push_text(&mut texts, &self.5)?;
        Ok(texts)
    }
}

impl<A: Display, B: Display, C: Display, D: Display, E: Display, F: Display, G: Display> Tabled
    for (A, B, C, D, E, F, G) {
    ghost known_headers = { Some (numbers 7) };

    ghost known_fields = { λ values. Some (A.output values.0 ∷ B.output values.1 ∷ C.output values.2 ∷ D.output values.3 ∷ E.output values.4 ∷ F.output values.5 ∷ G.output values.6 ∷ []) };

    fn headers(alloc: Global) -> Result<Vec<String>, OutOfMemory> {
        numbered(alloc, 7)
    }

    fn fields(&self, alloc: Global) -> Result<Vec<String>, OutOfMemory> {
        let mut texts = no_texts(alloc);
        push_text(&mut texts, &self.0)?;
        push_text(&mut texts, &self.1)?;
        push_text(&mut texts, &self.2)?;
        push_text(&mut texts, &self.3)?;
        push_text(&mut texts, &self.4)?;
        push_text(&mut texts, &self.5)?;
        push_text(&mut texts, &self.6)?;
        Ok(texts)
    }
}

impl<
    A: Display,
    B: Display,
    C: Display,
    D: Display,
    E: Display,
    F: Display,
    G: Display,
    H: Display,
> Tabled for (A, B, C, D, E, F, G, H) {
    ghost known_headers = { Some (numbers 8) };

    ghost known_fields = { λ values. Some (A.output values.0 ∷ B.output values.1 ∷ C.output values.2 ∷ D.output values.3 ∷ E.output values.4 ∷ F.output values.5 ∷ G.output values.6 ∷ H.output values.7 ∷ []) };

    fn headers(alloc: Global) -> Result<Vec<String>, OutOfMemory> {
        numbered(alloc, 8)
    }

    fn fields(&self, alloc: Global) -> Result<Vec<String>, OutOfMemory> {
        let mut texts = no_texts(alloc);
        push_text(&mut texts, &self.0)?;
        push_text(&mut texts, &self.1)?;
        push_text(&mut texts, &self.2)?;
        push_text(&mut texts, &self.3)?;
        push_text(&mut texts, &self.4)?;
        push_text(&mut texts, &self.5)?;
        push_text(&mut texts, &self.6)?;
        push_text(&mut texts, &self.7)?;
        Ok(texts)
    }
}

impl<
    A: Display,
    B: Display,
    C: Display,
    D: Display,
    E: Display,
    F: Display,
    G: Display,
    H: Display,
    I: Display,
> Tabled for (A, B, C, D, E, F, G, H, I) {
    ghost known_headers = { Some (numbers 9) };

    ghost known_fields = { λ values. Some (A.output values.0 ∷ B.output values.1 ∷ C.output values.2 ∷ D.output values.3 ∷ E.output values.4 ∷ F.output values.5 ∷ G.output values.6 ∷ H.output values.7 ∷ I.output values.8 ∷ []) };

    fn headers(alloc: Global) -> Result<Vec<String>, OutOfMemory> {
        numbered(alloc, 9)
    }

    fn fields(&self, alloc: Global) -> Result<Vec<String>, OutOfMemory> {
        let mut texts = no_texts(alloc);
        push_text(&mut texts, &self.0)?;
        push_text(&mut texts, &self.1)?;
        push_text(&mut texts, &self.2)?;
        push_text(&mut texts, &self.3)?;
        push_text(&mut texts, &self.4)?;
        push_text(&mut texts, &self.5)?;
        push_text(&mut texts, &self.6)?;
        push_text(&mut texts, &self.7)?;
        push_text(&mut texts, &self.8)?;
        Ok(texts)
    }
}

impl<
    A: Display,
    B: Display,
    C: Display,
    D: Display,
    E: Display,
    F: Display,
    G: Display,
    H: Display,
    I: Display,
    J: Display,
> Tabled for (A, B, C, D, E, F, G, H, I, J) {
    ghost known_headers = { Some (numbers 10) };

    ghost known_fields = { λ values. Some (A.output values.0 ∷ B.output values.1 ∷ C.output values.2 ∷ D.output values.3 ∷ E.output values.4 ∷ F.output values.5 ∷ G.output values.6 ∷ H.output values.7 ∷ I.output values.8 ∷ J.output values.9 ∷ []) };

    fn headers(alloc: Global) -> Result<Vec<String>, OutOfMemory> {
        numbered(alloc, 10)
    }

    fn fields(&self, alloc: Global) -> Result<Vec<String>, OutOfMemory> {
        let mut texts = no_texts(alloc);
        push_text(&mut texts, &self.0)?;
        push_text(&mut texts, &self.1)?;
        push_text(&mut texts, &self.2)?;
        push_text(&mut texts, &self.3)?;
        push_text(&mut texts, &self.4)?;
        push_text(&mut texts, &self.5)?;
        push_text(&mut texts, &self.6)?;
        push_text(&mut texts, &self.7)?;
        push_text(&mut texts, &self.8)?;
        push_text(&mut texts, &self.9)?;
        Ok(texts)
    }
}

impl<
    A: Display,
    B: Display,
    C: Display,
    D: Display,
    E: Display,
    F: Display,
    G: Display,
    H: Display,
    I: Display,
    J: Display,
    K: Display,
> Tabled for (A, B, C, D, E, F, G, H, I, J, K) {
    ghost known_headers = { Some (numbers 11) };

    ghost known_fields = { λ values. Some (A.output values.0 ∷ B.output values.1 ∷ C.output values.2 ∷ D.output values.3 ∷ E.output values.4 ∷ F.output values.5 ∷ G.output values.6 ∷ H.output values.7 ∷ I.output values.8 ∷ J.output values.9 ∷ K.output values.10 ∷ []) };

    fn headers(alloc: Global) -> Result<Vec<String>, OutOfMemory> {
        numbered(alloc, 11)
    }

    fn fields(&self, alloc: Global) -> Result<Vec<String>, OutOfMemory> {
        let mut texts = no_texts(alloc);
        push_text(&mut texts, &self.0)?;
        push_text(&mut texts, &self.1)?;
        push_text(&mut texts, &self.2)?;
        push_text(&mut texts, &self.3)?;
        push_text(&mut texts, &self.4)?;
        push_text(&mut texts, &self.5)?;
        push_text(&mut texts, &self.6)?;
        push_text(&mut texts, &self.7)?;
        push_text(&mut texts, &self.8)?;
        push_text(&mut texts, &self.9)?;
        push_text(&mut texts, &self.10)?;
        Ok(texts)
    }
}

impl<
    A: Display,
    B: Display,
    C: Display,
    D: Display,
    E: Display,
    F: Display,
    G: Display,
    H: Display,
    I: Display,
    J: Display,
    K: Display,
    L: Display,
> Tabled for (A, B, C, D, E, F, G, H, I, J, K, L) {
    ghost known_headers = { Some (numbers 12) };

    ghost known_fields = { λ values. Some (A.output values.0 ∷ B.output values.1 ∷ C.output values.2 ∷ D.output values.3 ∷ E.output values.4 ∷ F.output values.5 ∷ G.output values.6 ∷ H.output values.7 ∷ I.output values.8 ∷ J.output values.9 ∷ K.output values.10 ∷ L.output values.11 ∷ []) };

    fn headers(alloc: Global) -> Result<Vec<String>, OutOfMemory> {
        numbered(alloc, 12)
    }

    fn fields(&self, alloc: Global) -> Result<Vec<String>, OutOfMemory> {
        let mut texts = no_texts(alloc);
        push_text(&mut texts, &self.0)?;
        push_text(&mut texts, &self.1)?;
        push_text(&mut texts, &self.2)?;
        push_text(&mut texts, &self.3)?;
        push_text(&mut texts, &self.4)?;
        push_text(&mut texts, &self.5)?;
        push_text(&mut texts, &self.6)?;
        push_text(&mut texts, &self.7)?;
        push_text(&mut texts, &self.8)?;
        push_text(&mut texts, &self.9)?;
        push_text(&mut texts, &self.10)?;
        push_text(&mut texts, &self.11)?;
        Ok(texts)
    }
}
