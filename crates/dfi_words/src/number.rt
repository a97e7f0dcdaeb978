ghost use Rattle.dfi_words.specs.Answers.{AnswersTo};
ghost use Rattle.dfi_words.specs.Number.{IsNumberIn, up_to};

use crate::job::WordFault;

/// The most digits of a number.
const MOST_DIGITS: usize = 7;

/// The number from 1 to `most` that the text writes, with no leading zero.
pub fn number_up_to(most: u32, text: &str) -> Result<u32, WordFault>
    ensures { AnswersTo (IsNumberIn (up_to most) text.now) result }
{
    let bytes = text.as_bytes();
    if let [b'0' | b'+', ..] = bytes {
        return Err(WordFault::Refused);
    }
    if bytes.len() > MOST_DIGITS {
        return Err(WordFault::Refused);
    }
    let Ok(number) = text.parse::<u32>() else {
        return Err(WordFault::Refused);
    };
    if 1 <= number && number <= most {
        Ok(number)
    } else {
        Err(WordFault::Refused)
    }
}
