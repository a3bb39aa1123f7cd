//! The definitions that the whole store is proved against, and worked figures of them.
#![tactic(auto)]

mod part_figures;
mod report_figures;
mod step_figures;
mod withdraw_figures;

ghost use Rattle.store_spec.specs.Figures.{ExampleHomes, ExampleSizes, ExampleSizesInVersionTwo, ExamplePlaces, ExampleLayout, ExampleImage, ExampleImageInVersionTwo, ExampleWideCell, ExampleLines};

pub use part_figures::{example_borders, example_shares};
pub use report_figures::{example_reports, example_summary};
pub use step_figures::{example_claims, example_outcome, example_race};
pub use withdraw_figures::{example_finding, example_stale_candidate, example_withdrawal};

/// The homes of some numbers under the example election.
pub fn example_homes()
    ensures { ExampleHomes }
{}

/// The sizes of the example election's store.
#[tactic(auto, unfolding(crate::specs::Election::cell_size, crate::specs::Election::header_size, crate::specs::Election::in_version))]
pub fn example_sizes()
    ensures first { ExampleSizes }
    ensures second { ExampleSizesInVersionTwo }
{}

/// Where the parts of the example election's medium stand.
#[tactic(auto, unfolding(crate::specs::Election::cell_size, crate::specs::Election::header_size, crate::specs::Election::in_version))]
pub fn example_places()
    ensures { ExamplePlaces }
{}

/// Where three numbers stand under the example election.
pub fn example_layout()
    ensures { ExampleLayout }
{}

/// The image of three ballots under the example election, in either version.
#[tactic(auto, unfolding(crate::specs::Election::cell_size, crate::specs::Election::in_version, crate::specs::Image::header_of, crate::specs::Image::ballot_bytes))]
pub fn example_image()
    ensures first { ExampleImage }
    ensures second { ExampleImageInVersionTwo }
{}

/// The cell of a ballot that marks the last of 64 choices.
#[tactic(auto, unfolding(crate::specs::Election::cell_size, crate::specs::Election::header_size, crate::specs::Election::in_version, crate::specs::Image::ballot_bytes))]
pub fn example_wide_cell()
    ensures { ExampleWideCell }
{}

/// How a text is cut into lines.
pub fn example_lines()
    ensures { ExampleLines }
{}
