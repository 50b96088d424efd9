ghost use Rattle.std.specs.Prelude.{◌≡◌, ℕ, false, List, IsTrue, IfOk, Ok, Err};
ghost use Rattle.std.specs.List.{list_all};
ghost use Rattle.std.specs.String.{string_bytes};
ghost use Rattle.mr_model.specs.Texts.{within};
ghost use Rattle.mr_model.specs.Writes.{is_title};
ghost use Rattle.mr_base.specs.Answers.{OrOutOfMemory, ok_if};

use crate::{LONGEST_TITLE, Refusal};
use std::alloc::{AllocError, Global};
use std::marker::Model;

/// What a meeting is called: 1 to 60 printable ASCII bytes, with no space at either end. In contracts it is the
/// list of these bytes.
#[derive(Debug, Drop)]
pub struct Title {
    text: String,
}

impl Model for Title {
    ghost Value = { List ℕ };

    ghost view = { λ t. string_bytes t.text };

    ghost invariant = { λ t. IsTrue (is_title (string_bytes t.text)) };
}

impl Title {
    /// The title with this text.
    pub fn new(alloc: Global, text: &str) -> Result<Title, Refusal>
        ensures value { OrOutOfMemory result (ok_if (is_title text.now) text.now Refusal.BadTitle) }
        // A refusal that is due is returned without memory.
        ensures due { is_title text.now ≡ false → result ≡ Err Refusal.BadTitle }
    {
        if !is_title_text(text.as_bytes()) {
            return Err(Refusal::BadTitle);
        }
        Ok(Title::make(alloc, text)?)
    }

    /// Makes it of a text that passes the test.
    pub fn make(alloc: Global, text: &str) -> Result<Title, AllocError>
        requires { IsTrue (is_title text.now) }
        ensures { IfOk result (λ made. made ≡ text.now) }
    {
        let text = String::from_str(alloc, text)?;
        Ok(Title { text })
    }

    /// 1 to 60 bytes from 0x20 to 0x7E, neither the first nor the last a space.
    pub fn as_str(&self) -> &str
        ensures text { result.now ≡ self.now }
        ensures is_title { IsTrue (is_title self.now) }
    {
        self.text.as_str()
    }

    /// An equal title.
    pub fn copy(&self, alloc: Global) -> Result<Title, Refusal>
        ensures { OrOutOfMemory result (Ok self.now) }
    {
        let text = String::from_str(alloc, self.as_str())?;
        Ok(Title { text })
    }
}

impl Clone for Title {
    ghost is_clone = { λ s r. r ≡ s };

    fn clone(&self) -> Result<Title, AllocError> {
        let text = self.text.clone()?;
        Ok(Title { text })
    }
}

/// Whether the bytes are a title.
pub fn is_title_text(text: &[u8]) -> bool
    ensures { result ≡ is_title text.now }
{
    text.len() >= 1
        && text.len() <= LONGEST_TITLE
        && has_title_bytes(text)
        && text[0] != b' '
        && text[text.len() - 1] != b' '
}

fn has_title_bytes(text: &[u8]) -> bool
    ensures { result ≡ list_all (λ c. within 32 126 c) text.now }
{
    text.iter().all(|byte| *byte >= 32 && *byte <= 126)
}
