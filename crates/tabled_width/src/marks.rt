//! Which characters are spacing marks.

ghost use Rattle.std.specs.Prelude.{◌≡◌};
ghost use Rattle.tabled_width.specs.Marks.{is_near_marks, is_spacing_mark};

/// The characters of the general category Mc of Unicode 14.0, spacing combining marks: from the first to the last of each pair. A pair
/// may go on over marks that take no columns.
static SPACING_MARKS: [(char, char); 123] = [
    ('\u{903}', '\u{903}'),
    ('\u{93B}', '\u{93B}'),
    ('\u{93E}', '\u{94F}'),
    ('\u{982}', '\u{983}'),
    ('\u{9BE}', '\u{9C0}'),
    ('\u{9C7}', '\u{9C8}'),
    ('\u{9CB}', '\u{9CC}'),
    ('\u{9D7}', '\u{9D7}'),
    ('\u{A03}', '\u{A03}'),
    ('\u{A3E}', '\u{A40}'),
    ('\u{A83}', '\u{A83}'),
    ('\u{ABE}', '\u{AC0}'),
    ('\u{AC9}', '\u{AC9}'),
    ('\u{ACB}', '\u{ACC}'),
    ('\u{B02}', '\u{B03}'),
    ('\u{B3E}', '\u{B40}'),
    ('\u{B47}', '\u{B48}'),
    ('\u{B4B}', '\u{B4C}'),
    ('\u{B57}', '\u{B57}'),
    ('\u{BBE}', '\u{BC2}'),
    ('\u{BC6}', '\u{BC8}'),
    ('\u{BCA}', '\u{BCC}'),
    ('\u{BD7}', '\u{BD7}'),
    ('\u{C01}', '\u{C03}'),
    ('\u{C41}', '\u{C44}'),
    ('\u{C82}', '\u{C83}'),
    ('\u{CBE}', '\u{CC4}'),
    ('\u{CC7}', '\u{CC8}'),
    ('\u{CCA}', '\u{CCB}'),
    ('\u{CD5}', '\u{CD6}'),
    ('\u{D02}', '\u{D03}'),
    ('\u{D3E}', '\u{D40}'),
    ('\u{D46}', '\u{D48}'),
    ('\u{D4A}', '\u{D4C}'),
    ('\u{D57}', '\u{D57}'),
    ('\u{D82}', '\u{D83}'),
    ('\u{DCF}', '\u{DD1}'),
    ('\u{DD8}', '\u{DDF}'),
    ('\u{DF2}', '\u{DF3}'),
    ('\u{F3E}', '\u{F3F}'),
    ('\u{F7F}', '\u{F7F}'),
    ('\u{102B}', '\u{103C}'),
    ('\u{1056}', '\u{1057}'),
    ('\u{1062}', '\u{1064}'),
    ('\u{1067}', '\u{106D}'),
    ('\u{1083}', '\u{108C}'),
    ('\u{108F}', '\u{108F}'),
    ('\u{109A}', '\u{109C}'),
    ('\u{1715}', '\u{1715}'),
    ('\u{1734}', '\u{1734}'),
    ('\u{17B6}', '\u{17C8}'),
    ('\u{1923}', '\u{192B}'),
    ('\u{1930}', '\u{1938}'),
    ('\u{1A19}', '\u{1A1A}'),
    ('\u{1A55}', '\u{1A57}'),
    ('\u{1A61}', '\u{1A72}'),
    ('\u{1B04}', '\u{1B04}'),
    ('\u{1B35}', '\u{1B44}'),
    ('\u{1B82}', '\u{1B82}'),
    ('\u{1BA1}', '\u{1BAA}'),
    ('\u{1BE7}', '\u{1BF3}'),
    ('\u{1C24}', '\u{1C35}'),
    ('\u{1CE1}', '\u{1CE1}'),
    ('\u{1CF7}', '\u{1CF7}'),
    ('\u{302E}', '\u{302F}'),
    ('\u{A823}', '\u{A827}'),
    ('\u{A880}', '\u{A881}'),
    ('\u{A8B4}', '\u{A8C3}'),
    ('\u{A952}', '\u{A953}'),
    ('\u{A983}', '\u{A983}'),
    ('\u{A9B4}', '\u{A9C0}'),
    ('\u{AA2F}', '\u{AA34}'),
    ('\u{AA4D}', '\u{AA4D}'),
    ('\u{AA7B}', '\u{AA7D}'),
    ('\u{AAEB}', '\u{AAEF}'),
    ('\u{AAF5}', '\u{AAF5}'),
    ('\u{ABE3}', '\u{ABEA}'),
    ('\u{ABEC}', '\u{ABEC}'),
    ('\u{11000}', '\u{11002}'),
    ('\u{11082}', '\u{11082}'),
    ('\u{110B0}', '\u{110B8}'),
    ('\u{1112C}', '\u{1112C}'),
    ('\u{11145}', '\u{11146}'),
    ('\u{11182}', '\u{11182}'),
    ('\u{111B3}', '\u{111C0}'),
    ('\u{111CE}', '\u{111CE}'),
    ('\u{1122C}', '\u{11235}'),
    ('\u{112E0}', '\u{112E2}'),
    ('\u{11302}', '\u{11303}'),
    ('\u{1133E}', '\u{11344}'),
    ('\u{11347}', '\u{11348}'),
    ('\u{1134B}', '\u{1134D}'),
    ('\u{11357}', '\u{11357}'),
    ('\u{11362}', '\u{11363}'),
    ('\u{11435}', '\u{11445}'),
    ('\u{114B0}', '\u{114C1}'),
    ('\u{115AF}', '\u{115B1}'),
    ('\u{115B8}', '\u{115BE}'),
    ('\u{11630}', '\u{1163E}'),
    ('\u{116AC}', '\u{116B6}'),
    ('\u{11720}', '\u{11726}'),
    ('\u{1182C}', '\u{11838}'),
    ('\u{11930}', '\u{11935}'),
    ('\u{11937}', '\u{11938}'),
    ('\u{1193D}', '\u{1193D}'),
    ('\u{11940}', '\u{11940}'),
    ('\u{11942}', '\u{11942}'),
    ('\u{119D1}', '\u{119D3}'),
    ('\u{119DC}', '\u{119DF}'),
    ('\u{119E4}', '\u{119E4}'),
    ('\u{11A39}', '\u{11A39}'),
    ('\u{11A57}', '\u{11A58}'),
    ('\u{11A97}', '\u{11A97}'),
    ('\u{11C2F}', '\u{11C2F}'),
    ('\u{11C3E}', '\u{11C3E}'),
    ('\u{11CA9}', '\u{11CB4}'),
    ('\u{11D8A}', '\u{11D8E}'),
    ('\u{11D93}', '\u{11D96}'),
    ('\u{11EF5}', '\u{11EF6}'),
    ('\u{16F51}', '\u{16F87}'),
    ('\u{16FF0}', '\u{16FF1}'),
    ('\u{1D165}', '\u{1D166}'),
    ('\u{1D16D}', '\u{1D172}'),
];

/// Whether a character stands in one of the four parts of Unicode that have spacing marks, which is soon told.
fn is_near_marks(character: char) -> bool
    ensures { result ≡ is_near_marks character }
{
    matches!(
        character,
        '\u{903}'..='\u{1CF7}'
            | '\u{302E}'..='\u{302F}'
            | '\u{A823}'..='\u{ABEC}'
            | '\u{11000}'..='\u{1D172}'
    )
}

/// Whether a character is a spacing mark: it takes a column of its own, and yet belongs to the letter before it, as the vowel signs of
/// many scripts of India do. The marks are those of Unicode 14.0.
pub(crate) fn is_spacing_mark(character: char) -> bool
    ensures { result ≡ is_spacing_mark character }
{
    is_near_marks(character)
        && SPACING_MARKS
            .iter()
            .any(|(first, last)| *first <= character && character <= *last)
}
