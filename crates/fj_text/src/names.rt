//! The names of the variables of a ring.
ghost use Rattle.std.specs.Prelude.{◌≡◌, ◌<◌, length, map, slice_get, IfOk, IfSome, Some};
ghost use Rattle.fj_text.specs.Word.{AreNames, place_of};

use std::alloc::{AllocError, Global};
use std::marker::Model;

/// The names of the variables of a ring, in its order: at most seven words, no two the same. A word is an ASCII letter
/// or `_`, and then letters, digits and `_`.
#[derive(Debug, Drop)]
pub struct Names {
    words: Vec<String>,
}

impl Model for Names {
    ghost use Rattle.std.specs.Prelude.{List, ℕ, map, string_bytes};
    ghost use Rattle.std.specs.Coded.{coded_list, coded_ℕ};
    ghost use Rattle.fj_text.specs.Word.{AreNames};

    ghost Value = { List (List ℕ) };

    ghost coded = { coded_list (coded_list coded_ℕ) };

    ghost view = { λ n. map string_bytes n.words.items };

    ghost invariant = { λ n. AreNames (map string_bytes n.words.items) };
}

impl Names {
    /// These names.
    pub fn of(alloc: Global, v: &[&str]) -> Result<Names, AllocError>
        requires { AreNames (map (λ word. word.now) v.now) }
        ensures { IfOk result (λ names. names ≡ map (λ word. word.now) v.now) }
    {
        let mut words = Vec::new(alloc);
        for word in v {
            words.push(String::from_str(alloc, word)?)?;
        }
        Ok(Names { words })
    }

    /// The number of names.
    pub fn len(&self) -> usize
        ensures count { result ≡ length self.now }
        ensures names { AreNames self.now }
    {
        self.words.len()
    }

    /// The name at place i, counted from 0.
    pub fn word(&self, i: usize) -> &[u8]
        requires { i < length self.now }
        ensures { slice_get self.now i ≡ Some result.now }
    {
        self.words[i].as_bytes()
    }

    /// The place of a word among the names, counted from 0; `None` where it is none of them.
    pub fn place(&self, word: &[u8]) -> Option<usize>
        ensures place { result ≡ place_of self.now word.now }
        ensures within { IfSome result (λ i. i < 7) }
    {
        for (place, name) in self.words.iter().enumerate() {
            if name.as_bytes() == word {
                return Some(place);
            }
        }
        None
    }
}
