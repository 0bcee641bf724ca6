// Highlighters of code.
ghost use Rattle.std.specs.Prelude.{◌≡◌, ℕ, Bool, List, IfOk, string_bytes};
ghost use Rattle.md_text.specs.Look.{knows_ansi, knows_nothing, as_it_is};

use std::alloc::{AllocError, Global};

/// What colours the lines of fenced code.
///
/// Its meaning is a test of info texts, and a text with ANSI colours for each line of each language. Every call answers what
/// they say.
pub trait Highlighter {
    ghost known: { Self → List ℕ → Bool };

    ghost answer: { Self → List ℕ → List ℕ → List ℕ };

    /// Whether code with this info text is coloured.
    fn recognises(&self, lang: &str) -> bool
        ensures { result ≡ known self.now lang.now };

    /// The text with ANSI colours that is shown for this line; the only refusal is want of memory.
    fn line(&self, alloc: Global, lang: &str, line: &str) -> Result<String, AllocError>
        ensures { IfOk result (λ text. string_bytes text ≡ answer self.now lang.now line.now) };
}

/// A highlighter that recognises code whose info text is `ansi`, and answers its lines as they are.
#[derive(Clone, Copy, Debug)]
pub struct AnsiFence;

impl Highlighter for AnsiFence {
    ghost known = { λ _. knows_ansi };

    ghost answer = { λ _. as_it_is };

    fn recognises(&self, lang: &str) -> bool {
        lang == "ansi"
    }

    fn line(&self, alloc: Global, _lang: &str, line: &str) -> Result<String, AllocError> {
        String::from_str(alloc, line)
    }
}

/// A highlighter that recognises nothing, and answers lines as they are.
#[derive(Clone, Copy, Debug)]
pub struct NoHighlight;

impl Highlighter for NoHighlight {
    ghost known = { λ _. knows_nothing };

    ghost answer = { λ _. as_it_is };

    fn recognises(&self, _lang: &str) -> bool {
        false
    }

    fn line(&self, alloc: Global, _lang: &str, line: &str) -> Result<String, AllocError> {
        String::from_str(alloc, line)
    }
}
