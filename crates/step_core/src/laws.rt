//! What each step keeps, over a list of words and a list of views. Each function states a law and does nothing.

pub mod cast;
pub mod casting;
pub mod withdraw;
