//! Quick readers of the values that scripts mostly have. What they leave is asked of the general reader, `first_value`.

mod numbers;
mod pairs;
mod quotes;
mod words;

pub use numbers::{quick_decimal, quick_negative};
pub use pairs::quick_bytes;
pub use quotes::quick_quoted;
pub use words::quick_flag;
