//! The words of the command line.
ghost use Rattle.std.specs.Prelude.{◌≡◌, ◌≤◌, ℕ, ◌↔◌, IfSome, IsTrue, None, length};
ghost use Rattle.std.specs.Str.Parse.{AllDigits, digits_value};
ghost use Rattle.fj_session.specs.Words.{IsForm, IsNoForm, IsNumeral};
ghost use Rattle.fj_shell.specs.Shell.{texts_of};

/// What the words ask for.
#[derive(Clone, Copy, Debug, PartialEq, Eq)]
pub(crate) enum Form {
    /// `run`: a session is read and answered.
    Run,
    /// `run audit`: the same, then a line for each auditor that remains.
    Audit,
    /// `gen N`: the generated session of N is answered, and summed up in one line.
    Gen(u32),
}

/// The form of the words, which are those behind the program's name.
pub(crate) fn read_words(words: &[&str]) -> Option<Form>
    ensures found { IfSome result (λ form. IsForm form (texts_of words.now)) }
    ensures none { result ≡ None → IsNoForm (texts_of words.now) }
{
    if is_run(words) {
        return Some(Form::Run);
    }
    if is_audit(words) {
        return Some(Form::Audit);
    }
    generated(words)
}

/// Whether the words are `run` alone.
fn is_run(words: &[&str]) -> bool
    ensures { IsTrue result ↔ IsForm Form.Run (texts_of words.now) }
{
    words.len() == 1 && words[0] == "run"
}

/// Whether the words are `run audit`.
fn is_audit(words: &[&str]) -> bool
    ensures { IsTrue result ↔ IsForm Form.Audit (texts_of words.now) }
{
    words.len() == 2 && words[0] == "run" && words[1] == "audit"
}

/// The form of `gen N`.
fn generated(words: &[&str]) -> Option<Form>
    ensures found { IfSome result (λ form. IsForm form (texts_of words.now)) }
    ensures none { result ≡ None → (n : ℕ) → IsForm (Form.Gen n) (texts_of words.now) → ⊥ }
{
    if words.len() != 2 || words[0] != "gen" {
        return None;
    }
    let n = number(words[1])?;
    Some(Form::Gen(n))
}

/// The number from 1 to 1,000 that one to four digits write.
fn number(word: &str) -> Option<u32>
    ensures found { IfSome result (λ n. IsNumeral n word.now) }
    ensures none { result ≡ None → (n : ℕ) → IsNumeral n word.now → ⊥ }
{
    let digits = word.as_bytes();
    if digits.is_empty() || digits.len() > 4 {
        return None;
    }
    let value = value_of(digits)?;
    if value == 0 || value > 1000 {
        return None;
    }
    Some(value)
}

/// The number that at most four digits write.
fn value_of(digits: &[u8]) -> Option<u32>
    requires { length digits.now ≤ 4 }
    ensures found { IfSome result (λ value. AllDigits 10 digits.now × (value ≡ digits_value 10 digits.now)) }
    ensures none { result ≡ None → AllDigits 10 digits.now → ⊥ }
{
    let mut value = 0;
    for digit in digits {
        if !digit.is_ascii_digit() {
            return None;
        }
        value = 10 * value + u32::from(*digit - b'0');
    }
    Some(value)
}
