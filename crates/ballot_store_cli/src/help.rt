//! What a terminal shows below the line `usage`: how each command is typed, and where the manual is.

use std::io;

/// What stands behind the medium and the election, in the order and the words of the manual page's synopsis.
const FORMS: &[&str] = &[
    "init",
    "session <script",
    "audit",
    "build <ballots >image",
    "large --seed S --count C --tabs T",
    "sample DICE K",
    "compare DICE K <lines",
    "merge MORE ..",
    "migrate TARGET",
    "twin SECOND <script",
    "part MORE .. <script",
    "replay <schedule",
];

/// Writes a line for each command, as it is typed, and then the name of the manual page.
pub fn print_forms<P: Print>(to: &P) -> io::Result<()> {
    for form in FORMS {
        to.println(format_args!("    ballot_store MEDIUM ELECTION {form}"))?;
    }
    to.println("The manual: man ballot_store")
}
