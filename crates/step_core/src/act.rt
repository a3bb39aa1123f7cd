//! What a step does to a shared word.

ghost use Rattle.std.specs.Prelude.{◌≡◌, ◌<◌, length, slice_index, slice_set};
ghost use Rattle.step_core.specs.Act.{act_of};
ghost use Rattle.store_spec.specs.Act.{left_by, word_of};

/// What a step does to a shared word. Words 0 to `cells - 1` are the cells, and the claim or flag words follow.
#[derive(Clone, Copy, Debug, PartialEq, Eq)]
pub enum Act {
    /// Nothing: there is no step.
    Nothing,
    /// Reads the word.
    Load { word: usize },
    /// Puts a value in place of what the word holds.
    Swap { word: usize, put: u64 },
    /// Puts a value in place of what the word holds, where that is what is wanted.
    Trade { word: usize, want: u64, put: u64 },
}

/// Whether a core's tabulator made a step.
#[derive(Clone, Copy, Debug, PartialEq, Eq)]
pub enum Stepped {
    /// It is at rest with its list used up, and nothing changed.
    AtRest,
    /// One atomic step was made.
    Step,
}

/// Makes an act on shared words, and gives the word that it found.
pub fn perform(words: &mut [u64], act: Act) -> u64
    requires { word_of (act_of act) < length words.old }
    ensures found { result ≡ slice_index words.old (word_of (act_of act)) }
    ensures left { words.new
        ≡ slice_set words.old (word_of (act_of act)) (left_by (act_of act) result) }
{
    match act {
        Act::Nothing => words[0],
        Act::Load { word } => words[word],
        Act::Swap { word, put } => {
            let found = words[word];
            words[word] = put;
            found
        }
        Act::Trade { word, want, put } => {
            let found = words[word];
            if found == want {
                words[word] = put;
            }
            found
        }
    }
}
