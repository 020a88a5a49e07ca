//! Laws of renaming in texts: a text that is edited where a name is renamed lexes to the renamed
//! tokens, and so it is parsed as the renamed tree.

pub mod laws;
