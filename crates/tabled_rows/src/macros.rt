//! A row of texts, written where it is needed.

/// The texts of up to twelve values of unlike types, as they display themselves: `row![in alloc; "tea", 95, 2.5]?` is a
/// `Vec<String>`. Only memory can be refused.
#[macro_export]
macro_rules! row {
    (in $alloc:expr; $($value:expr),+ $(,)?) => {
        $crate::Tabled::fields(&($(&$value,)+), $alloc)
    };
}
