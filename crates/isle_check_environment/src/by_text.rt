//! Values by text.

use std::collections::HashMap;

/// Values by text, in no order. A lookup takes constant time.
pub type ByText<V> = HashMap<String, V>;
