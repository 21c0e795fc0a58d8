//! The tokens of a plan's text.
ghost use Rattle.std.specs.Prelude.{◌≡◌, bytes_eq};
ghost use Rattle.std.specs.List.{find};
ghost use Rattle.plan_text.specs.Token.{word_bytes, mark_bytes, word_with};

use rows_core::{Name, Txt};

/// A word, a number, a text or a mark. Spaces part tokens and mean nothing else.
#[derive(Drop)]
pub enum Token {
    /// A word that is a name.
    Name(Name),
    /// A reserved word.
    Word(Word),
    /// A number without its sign, of at most 2^63.
    Number(u64),
    /// A text between two `"`.
    Text(Txt),
    Mark(Mark),
}

/// The reserved words that a plan has. The other ones, `as end int text bool`, stand in no plan.
#[derive(Clone, Copy, PartialEq, Eq)]
pub enum Word {
    And,
    Or,
    Not,
    If,
    True,
    False,
    Len,
    Abs,
    Starts,
    Least,
    Most,
    From,
    Where,
    Select,
    Distinct,
    Group,
    With,
    Join,
    On,
    Concat,
    Order,
    Desc,
}

/// What stands between words.
#[derive(Clone, Copy, PartialEq, Eq)]
pub enum Mark {
    Bar,
    Comma,
    Open,
    Close,
    Equal,
    NotEqual,
    Less,
    LessEqual,
    Greater,
    GreaterEqual,
    Plus,
    /// A `-` that isn't directly before a digit.
    Minus,
    /// A `-` directly before a digit: where an operand is expected it belongs to the number.
    Sign,
    Times,
    Divide,
    Rest,
}

const WORDS: [Word; 22] = [
    Word::And,
    Word::Or,
    Word::Not,
    Word::If,
    Word::True,
    Word::False,
    Word::Len,
    Word::Abs,
    Word::Starts,
    Word::Least,
    Word::Most,
    Word::From,
    Word::Where,
    Word::Select,
    Word::Distinct,
    Word::Group,
    Word::With,
    Word::Join,
    Word::On,
    Word::Concat,
    Word::Order,
    Word::Desc,
];

impl Word {
    /// How the word is spelled, in lower-case letters. It takes no memory.
    pub fn bytes(&self) -> &[u8]
        ensures { result.now ≡ word_bytes self.now }
    {
        match self {
            Word::And => b"and",
            Word::Or => b"or",
            Word::Not => b"not",
            Word::If => b"if",
            Word::True => b"true",
            Word::False => b"false",
            Word::Len => b"len",
            Word::Abs => b"abs",
            Word::Starts => b"starts",
            Word::Least => b"least",
            Word::Most => b"most",
            Word::From => b"from",
            Word::Where => b"where",
            Word::Select => b"select",
            Word::Distinct => b"distinct",
            Word::Group => b"group",
            Word::With => b"with",
            Word::Join => b"join",
            Word::On => b"on",
            Word::Concat => b"concat",
            Word::Order => b"order",
            Word::Desc => b"desc",
        }
    }

    /// The word with these bytes.
    #[tactic(auto, unfolding(crate::specs::Token::word_with))]
    pub fn of(bytes: &[u8]) -> Option<Word>
        ensures { result ≡ word_with bytes.now }
    {
        let words: [Word; 22] = WORDS;
        first_with(words.as_slice(), bytes)
    }
}

impl Mark {
    /// How the mark is spelled, in one byte or two; `Minus` and `Sign` alike. It takes no memory.
    pub fn bytes(&self) -> &[u8]
        ensures { result.now ≡ mark_bytes self.now }
    {
        match self {
            Mark::Bar => b"|",
            Mark::Comma => b",",
            Mark::Open => b"(",
            Mark::Close => b")",
            Mark::Equal => b"=",
            Mark::NotEqual => b"!=",
            Mark::Less => b"<",
            Mark::LessEqual => b"<=",
            Mark::Greater => b">",
            Mark::GreaterEqual => b">=",
            Mark::Plus => b"+",
            Mark::Minus | Mark::Sign => b"-",
            Mark::Times => b"*",
            Mark::Divide => b"/",
            Mark::Rest => b"%",
        }
    }
}

fn first_with(words: &[Word], bytes: &[u8]) -> Option<Word>
    ensures { result ≡ find (λ word. bytes_eq (word_bytes word) bytes.now) words.now }
{
    words.iter().copied().find(|word| word.bytes() == bytes)
}
