//! Texts by themselves: cleaned, with spaces in the place of tabs, and within a number of columns or lines. Each function is a law.

ghost use Rattle.std.specs.Prelude.{◌≡◌, ◌⊎◌, ◌==◌, ◌&&◌, ◌||◌, ℕ, ◌+◌, ◌%◌, ◌++◌, ◌<◌, ◌≤◌, nat_le, not, List, [], ◌∷◌, true, false, length, All, Contains};
ghost use Rattle.std.specs.List.{concat, list_all};
ghost use Rattle.std.specs.Str.{IsUtf8};
ghost use Rattle.tabled_clean.specs.Steering.{cleaned, is_clean};
ghost use Rattle.tabled_width.specs.Clusters.{clusters};
ghost use Rattle.tabled_width.specs.CutOff.{cut_off, shortened, suffix_shown, truncated};
ghost use Rattle.tabled_width.specs.Limited.{CanFit, IsPrintableText, ends_printable, limited};
ghost use Rattle.tabled_width.specs.declared.limit.Overflow.{Overflow as How};
ghost use Rattle.tabled_width.specs.Rows.{AreFull, ClustersFit, IsSpacedOut, WordsFit, line_rows, word_rows, wrapped, wrapped_words};
ghost use Rattle.tabled_width.specs.Tabs.{tabs_expanded, up_to_stop};
ghost use Rattle.tabled_width.specs.Texts.{LinesFit, fits, is_printable, pieces, width_of_text};

/// No character of a cleaned text steers a terminal.
pub fn nothing_steers_in_cleaned_texts()
    ensures { (text : List ℕ) → IsUtf8 text → is_clean (cleaned text) ≡ true }
{}

/// A text of which no character steers a terminal is as it was.
pub fn clean_texts_stay()
    ensures { (text : List ℕ) → IsUtf8 text → is_clean text ≡ true → cleaned text ≡ text }
{}

/// A text cleaned twice is the text cleaned once.
pub fn cleaned_twice_is_once()
    ensures { (text : List ℕ) → IsUtf8 text → cleaned (cleaned text) ≡ cleaned text }
{}

/// No byte of a cleaned text is below 32 but line feeds, and none is the delete character.
pub fn bytes_of_cleaned_texts()
    ensures { (text : List ℕ) → IsUtf8 text → list_all (λ byte. (nat_le 32 byte && not (byte == 127)) || (byte == 10)) (cleaned text) ≡ true }
{}

/// The clusters of a line, one after another, are the line, and none is empty.
pub fn clusters_make_the_line()
    ensures line { (line : List ℕ) → IsUtf8 line → concat (clusters line) ≡ line }
    ensures some { (line : List ℕ) → All (λ cluster. 0 < length cluster) (clusters line) }
{}

/// Each cluster of a line of printable ASCII fits where there is a column.
pub fn printable_clusters_fit()
    ensures { (width : ℕ) (line : List ℕ) → 1 ≤ width → list_all is_printable line ≡ true → All (λ cluster. fits width cluster ≡ true) (clusters line) }
{}

/// The rows of a line that is cut between its clusters make up the line.
pub fn nothing_is_lost()
    ensures { (width : ℕ) (line : List ℕ) → IsUtf8 line → concat (line_rows width line) ≡ line }
{}

/// A line that is cut at its spaces is its rows in their order, with nothing but spaces before each and after the last.
pub fn only_spaces_are_lost()
    ensures { (width : ℕ) (line : List ℕ) → IsUtf8 line → IsSpacedOut (word_rows width line) line }
{}

/// Each row of a line that is cut between its clusters fits, or is one cluster of the line.
pub fn rows_fit()
    ensures { (width : ℕ) (line : List ℕ) → All (λ row. (fits width row ≡ true) ⊎ Contains (clusters line) row) (line_rows width line) }
{}

/// Where each cluster of each word of a line fits, so does each row of the line that is cut at its spaces.
pub fn word_rows_fit()
    ensures { (width : ℕ) (line : List ℕ) → WordsFit width line → All (λ row. fits width row ≡ true) (word_rows width line) }
{}

/// Each row but the last of a line that is cut between its clusters is full: the next begins with a cluster with which it would be
/// too wide.
pub fn rows_are_full()
    ensures { (width : ℕ) (line : List ℕ) → AreFull width (clusters line) (line_rows width line) }
{}

/// A line that is cut off fits, whatever its suffix.
pub fn cut_off_lines_fit()
    ensures { (width : ℕ) (suffix : List ℕ) (line : List ℕ) → fits width (cut_off width (suffix_shown width suffix) line) ≡ true }
{}

/// A text whose lines fit stays as it is, and so does a text of no more lines than may be.
pub fn what_fits_stays()
    ensures wrapped { (width : ℕ) (text : List ℕ) → LinesFit width text → wrapped width text ≡ text }
    ensures words { (width : ℕ) (text : List ℕ) → LinesFit width text → wrapped_words width text ≡ text }
    ensures truncated { (width : ℕ) (suffix : List ℕ) (text : List ℕ) → LinesFit width text → truncated width suffix text ≡ text }
    ensures shortened { (count : ℕ) (suffix : List ℕ) (text : List ℕ) → length (pieces text) ≤ count → shortened count suffix text ≡ text }
{}

/// Where each cluster fits, each line does after the text was wrapped.
pub fn wrapped_lines_fit()
    ensures wrapped { (width : ℕ) (text : List ℕ) → IsUtf8 text → ClustersFit width text → LinesFit width (wrapped width text) }
    ensures words { (width : ℕ) (text : List ℕ) → IsUtf8 text → All (WordsFit width) (pieces text) → LinesFit width (wrapped_words width text) }
{}

/// Each line fits after the text was cut off, if the suffix has no line feed.
pub fn truncated_lines_fit()
    ensures { (width : ℕ) (suffix : List ℕ) (text : List ℕ) → IsUtf8 text → IsUtf8 suffix → pieces suffix ≡ suffix ∷ [] → LinesFit width (truncated width suffix text) }
{}

/// A text that was shortened has no more lines than it may, if the suffix has no line feed.
pub fn shortened_lines_are_few()
    ensures { (count : ℕ) (suffix : List ℕ) (text : List ℕ) → pieces suffix ≡ suffix ∷ [] → 1 ≤ count → length (pieces (shortened count suffix text)) ≤ count }
{}

/// To wrap a text twice is to wrap it once, where each cluster fits; and to cut it off twice is to do it once.
pub fn limited_twice_is_once()
    ensures wrapped { (width : ℕ) (text : List ℕ) → IsUtf8 text → ClustersFit width text → wrapped width (wrapped width text) ≡ wrapped width text }
    ensures words { (width : ℕ) (text : List ℕ) → IsUtf8 text → All (WordsFit width) (pieces text) → wrapped_words width (wrapped_words width text) ≡ wrapped_words width text }
    ensures truncated { (width : ℕ) (suffix : List ℕ) (text : List ℕ) → IsUtf8 text → IsUtf8 suffix → pieces suffix ≡ suffix ∷ []
        → truncated width suffix (truncated width suffix text) ≡ truncated width suffix text }
{}

/// Each line of a text that was limited fits, whatever is done with those that are too wide, where what this asks for is so.
pub fn limited_lines_fit()
    ensures { (how : How) (width : ℕ) (text : List ℕ) → IsUtf8 text → CanFit how width text → LinesFit width (limited how width text) }
{}

/// Of a text each of whose lines is of printable ASCII nothing more is asked, where there is a column; nor of a suffix of printable ASCII.
pub fn printable_texts_can_fit()
    ensures { (how : How) (width : ℕ) (text : List ℕ) → 1 ≤ width → ends_printable how ≡ true → IsPrintableText text → CanFit how width text }
{}

/// No tab is left in a text whose tabs became spaces, and a text without tabs is as it was.
pub fn no_tab_is_left()
    ensures none { (every : ℕ) (text : List ℕ) → All (λ byte. (byte == 9) ≡ false) (tabs_expanded every text) }
    ensures same { (every : ℕ) (text : List ℕ) → All (λ byte. (byte == 9) ≡ false) text → tabs_expanded every text ≡ text }
{}

/// What follows a tab begins at a stop: a text with the spaces up to its next stop takes a multiple of the columns from stop to stop, and
/// what follows these spaces adds its own columns to that.
pub fn tabs_end_at_stops()
    ensures stop { (every : ℕ) (text : List ℕ) → 1 ≤ every → IsUtf8 text → width_of_text (up_to_stop every text) % every ≡ 0 }
    ensures adds { (every : ℕ) (text more : List ℕ) → 1 ≤ every → IsUtf8 text
        → width_of_text (up_to_stop every text ++ more) ≡ width_of_text (up_to_stop every text) + width_of_text more }
{}
