// The reader's steps.
ghost use Rattle.std.specs.Prelude.{◌≡◌, ◌≤◌, length};
ghost use Rattle.std.specs.Option.{option_map};
ghost use Rattle.text.specs.Out.{word_out, a_peek, a_comma};
ghost use Rattle.text.specs.Tokens.{item, yielded, next_token, next_place, checked, as_item};
ghost use Rattle.text.specs.Ahead.{tokens_ahead, follow, text_of, place_of};

use crate::faults::WordFault;
use crate::octets::Class;
use crate::reader::Reader;
use crate::tokens::{Token, Word};

// The longest word.
const LONGEST: usize = 16;

impl<'a> Reader<'a> {
    // A reader at the text's beginning.
    pub fn new(text: &'a [u8]) -> Reader<'a>
        ensures text { text_of result ≡ text.now }
        ensures place { place_of result ≡ 0 }
    {
        Reader { text, at: 0 }
    }

    // The length of the whole text.
    pub fn end(&self) -> usize
        ensures { result ≡ length (text_of self.now) }
    {
        self.text.len()
    }

    // The next token, or none at the end of the text.
    #[tactic(auto, using(crate::proofs::Steps::tokens_step), unfolding(crate::specs::Ahead::tokens_ahead))]
    pub fn next(&mut self) -> Result<Option<Token<'a>>, WordFault>
        ensures value { yielded result ≡ next_token (text_of self.old) (place_of self.old) }
        ensures place { place_of self.new ≡ next_place (text_of self.old) (place_of self.old) }
        ensures same { text_of self.new ≡ text_of self.old }
        ensures ahead { tokens_ahead self.old ≡ follow (yielded result) (length (text_of self.old)) (tokens_ahead self.new) }
    {
        self.step()
    }

    // The next token, which stays to be read.
    #[tactic(auto, unfolding(crate::specs::Ahead::tokens_ahead))]
    pub fn peek(&self) -> Result<Option<Token<'a>>, WordFault>
        ensures { word_out (option_map item) result (tokens_ahead self.now) ≡ a_peek (tokens_ahead self.now) }
    {
        let mut ahead = Reader {
            text: self.text,
            at: self.at,
        };
        ahead.next()
    }

    // Passes over a comma, where one comes next, and says whether one did.
    #[tactic(auto, unfolding(crate::specs::Ahead::tokens_ahead))]
    pub fn comma(&mut self) -> Result<bool, WordFault>
        ensures value { word_out (λ b. b) result (tokens_ahead self.new) ≡ a_comma (tokens_ahead self.old) }
        ensures same { text_of self.new ≡ text_of self.old }
    {
        let start = self.at;
        let found = matches!(self.next()?, Some(Token::Comma(_)));
        if !found {
            self.at = start;
        }
        Ok(found)
    }

    // The same; `next` adds what the tokens ahead then are, which search does not prove at each arm.
    fn step(&mut self) -> Result<Option<Token<'a>>, WordFault>
        ensures value { yielded result ≡ next_token (text_of self.old) (place_of self.old) }
        ensures place { place_of self.new ≡ next_place (text_of self.old) (place_of self.old) }
        ensures same { text_of self.new ≡ text_of self.old }
    {
        let text = self.text;
        let start = self.at + Class::Blank.run(&text[self.at..]);
        self.at = start;
        match text.get(start) {
            None => Ok(None),
            Some(b'*') => {
                self.at = start + 1;
                Ok(Some(Token::Star(start)))
            }
            Some(b',') => {
                self.at = start + 1;
                Ok(Some(Token::Comma(start)))
            }
            Some(_) => {
                let end = start + Class::Inner.run(&text[start..]);
                self.at = end;
                word(&text[start..end], start)
            }
        }
    }
}

// The word of these octets at an offset, where a word may have them and as many.
fn word(octets: &[u8], at: usize) -> Result<Option<Token>, WordFault>
    ensures { yielded result ≡ as_item at (checked at octets.now) }
{
    if !Class::Allowed.all(octets) {
        return Err(WordFault::Octet(at));
    }
    if octets.len() > LONGEST {
        return Err(WordFault::Long(at));
    }
    Ok(Some(Token::Word(Word { octets, at })))
}
