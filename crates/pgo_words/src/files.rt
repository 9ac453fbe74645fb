// The files and numbers of a command.
ghost use Rattle.std.specs.Prelude.{◌≡◌, IfOk, IsErrOf, None, Some};
ghost use Rattle.std.specs.List.{list_all};
ghost use Rattle.pgo_words.specs.Table.{for_four, for_inputs, for_number, for_one, for_three, for_two, is_named};
ghost use Rattle.pgo_words.specs.Values.{four_of, pair_of, texts_of, three_of, two_of};

use crate::WordsError;
use crate::numbers::number_within;

/// The one file that is given.
pub fn one<'a>(files: &[&'a str]) -> Result<&'a str, WordsError>
    ensures found { IfOk result (λ a. for_one (λ x. x) (texts_of files.now) ≡ Some a.now) }
    ensures usage { IsErrOf result WordsError.Usage → for_one (λ x. x) (texts_of files.now) ≡ None }
{
    match files {
        [a] => Ok(a),
        _ => Err(WordsError::Usage),
    }
}

/// The two files that are given.
pub fn two<'a>(files: &[&'a str]) -> Result<(&'a str, &'a str), WordsError>
    ensures found { IfOk result (λ fs. for_two two_of (texts_of files.now) ≡ Some (two_of fs.0.now fs.1.now)) }
    ensures usage { IsErrOf result WordsError.Usage → for_two two_of (texts_of files.now) ≡ None }
{
    match files {
        [a, b] => Ok((a, b)),
        _ => Err(WordsError::Usage),
    }
}

/// The three files that are given.
pub fn three<'a>(files: &[&'a str]) -> Result<(&'a str, &'a str, &'a str), WordsError>
    ensures found { IfOk result (λ fs. for_three three_of (texts_of files.now) ≡ Some (three_of fs.0.now fs.1.now fs.2.now)) }
    ensures usage { IsErrOf result WordsError.Usage → for_three three_of (texts_of files.now) ≡ None }
{
    match files {
        [a, b, c] => Ok((a, b, c)),
        _ => Err(WordsError::Usage),
    }
}

/// The four files that are given, of which the last two differ.
pub fn four<'a>(files: &[&'a str]) -> Result<(&'a str, &'a str, &'a str, &'a str), WordsError>
    ensures found { IfOk result (λ fs. for_four four_of (texts_of files.now) ≡ Some (four_of fs.0.now fs.1.now fs.2.now fs.3.now)) }
    ensures usage { IsErrOf result WordsError.Usage → for_four four_of (texts_of files.now) ≡ None }
{
    match files {
        [a, b, c, d] if *c != *d => Ok((a, b, c, d)),
        _ => Err(WordsError::Usage),
    }
}

/// Whether each file has a name.
pub fn are_named(files: &[&str]) -> bool
    ensures { result ≡ list_all is_named (texts_of files.now) }
{
    has_names(files)
}

fn has_names(files: &[&str]) -> bool
    ensures { result ≡ list_all (λ file. is_named file.now) files.now }
{
    files.iter().all(|file| !file.is_empty())
}

/// The file and the one to 64 behind it that are given.
pub fn inputs<'m, 'a>(files: &'m [&'a str]) -> Result<(&'a str, &'m [&'a str]), WordsError>
    ensures found { IfOk result (λ fs. for_inputs pair_of (texts_of files.now) ≡ Some (pair_of fs.0.now (texts_of fs.1.now))) }
    ensures usage { IsErrOf result WordsError.Usage → for_inputs pair_of (texts_of files.now) ≡ None }
{
    match files {
        [out, inputs @ ..] if 1 <= inputs.len() && inputs.len() <= 64 => Ok((out, inputs)),
        _ => Err(WordsError::Usage),
    }
}

/// The number that is given alone.
pub fn number(files: &[&str]) -> Result<u32, WordsError>
    ensures found { IfOk result (λ n. for_number (λ x. x) (texts_of files.now) ≡ Some n) }
    ensures usage { IsErrOf result WordsError.Usage → for_number (λ x. x) (texts_of files.now) ≡ None }
{
    match files {
        [text] => match number_within(text, 13, 0, 4_294_967_295) {
            Some(number) => Ok(number as u32),
            None => Err(WordsError::Usage),
        },
        _ => Err(WordsError::Usage),
    }
}
