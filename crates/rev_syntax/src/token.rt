//! What the tokens of a text are.
ghost use Rattle.std.specs.Prelude.{◌≡◌};
ghost use Rattle.rev_syntax.specs.Words as spec;

/// A token that is always spelled alike: a reserved word, or a sign.
#[derive(Clone, Copy, PartialEq, Eq, Debug, Drop)]
pub enum Fixed {
    // The reserved words.
    Fun,
    Merge,
    Versioned,
    Cumulative,
    By,
    Proc,
    Main,
    KindInt,
    KindBool,
    KindRev,
    Let,
    If,
    Else,
    While,
    Call,
    Return,
    Fork,
    Join,
    TryJoin,
    Print,
    Assert,
    True,
    False,
    NoRev,
    Input,
    Inputs,
    Pick,

    // The signs.
    Equal,
    NotEqual,
    LessEqual,
    GreaterEqual,
    And,
    Or,
    OpenParen,
    CloseParen,
    OpenBrace,
    CloseBrace,
    OpenBracket,
    CloseBracket,
    Comma,
    Semicolon,
    Colon,
    Assign,
    Plus,
    Minus,
    Star,
    Slash,
    Percent,
    Bang,
    Less,
    Greater,
}

/// What a token is: a name, a number with its value, a text in quotes, or a reserved word or sign.
#[derive(Clone, Copy, Debug)]
pub enum TokenKind {
    Name,
    Int(i64),
    Text,
    Fixed(Fixed),
}

/// A token, with the offset of its first byte and the offset after its last one.
#[derive(Clone, Copy)]
pub struct Token {
    pub kind: TokenKind,
    pub start: u32,
    pub end: u32,
}

/// What a piece of a text is. Only tokens are kept.
#[derive(Clone, Copy)]
pub enum PieceKind {
    WhiteSpace,
    Comment,
    Token(TokenKind),
}

/// The reserved words.
pub const WORDS: [Fixed; 27] = [
    Fixed::Fun,
    Fixed::Merge,
    Fixed::Versioned,
    Fixed::Cumulative,
    Fixed::By,
    Fixed::Proc,
    Fixed::Main,
    Fixed::KindInt,
    Fixed::KindBool,
    Fixed::KindRev,
    Fixed::Let,
    Fixed::If,
    Fixed::Else,
    Fixed::While,
    Fixed::Call,
    Fixed::Return,
    Fixed::Fork,
    Fixed::Join,
    Fixed::TryJoin,
    Fixed::Print,
    Fixed::Assert,
    Fixed::True,
    Fixed::False,
    Fixed::NoRev,
    Fixed::Input,
    Fixed::Inputs,
    Fixed::Pick,
];

/// The signs, the longer ones first.
pub const SIGNS: [Fixed; 24] = [
    Fixed::Equal,
    Fixed::NotEqual,
    Fixed::LessEqual,
    Fixed::GreaterEqual,
    Fixed::And,
    Fixed::Or,
    Fixed::OpenParen,
    Fixed::CloseParen,
    Fixed::OpenBrace,
    Fixed::CloseBrace,
    Fixed::OpenBracket,
    Fixed::CloseBracket,
    Fixed::Comma,
    Fixed::Semicolon,
    Fixed::Colon,
    Fixed::Assign,
    Fixed::Plus,
    Fixed::Minus,
    Fixed::Star,
    Fixed::Slash,
    Fixed::Percent,
    Fixed::Bang,
    Fixed::Less,
    Fixed::Greater,
];

impl Fixed {
    /// The bytes of a reserved word or a sign.
    pub fn spelling(self) -> &'static [u8]
        ensures { result.now ≡ spec.spelling self }
    {
        match self {
            Fixed::Fun => b"fun",
            Fixed::Merge => b"merge",
            Fixed::Versioned => b"versioned",
            Fixed::Cumulative => b"cumulative",
            Fixed::By => b"by",
            Fixed::Proc => b"proc",
            Fixed::Main => b"main",
            Fixed::KindInt => b"int",
            Fixed::KindBool => b"bool",
            Fixed::KindRev => b"rev",
            Fixed::Let => b"let",
            Fixed::If => b"if",
            Fixed::Else => b"else",
            Fixed::While => b"while",
            Fixed::Call => b"call",
            Fixed::Return => b"return",
            Fixed::Fork => b"rfork",
            Fixed::Join => b"rjoin",
            Fixed::TryJoin => b"tryjoin",
            Fixed::Print => b"print",
            Fixed::Assert => b"assert",
            Fixed::True => b"true",
            Fixed::False => b"false",
            Fixed::NoRev => b"none",
            Fixed::Input => b"input",
            Fixed::Inputs => b"inputs",
            Fixed::Pick => b"pick",
            Fixed::Equal => b"==",
            Fixed::NotEqual => b"!=",
            Fixed::LessEqual => b"<=",
            Fixed::GreaterEqual => b">=",
            Fixed::And => b"&&",
            Fixed::Or => b"||",
            Fixed::OpenParen => b"(",
            Fixed::CloseParen => b")",
            Fixed::OpenBrace => b"{",
            Fixed::CloseBrace => b"}",
            Fixed::OpenBracket => b"[",
            Fixed::CloseBracket => b"]",
            Fixed::Comma => b",",
            Fixed::Semicolon => b";",
            Fixed::Colon => b":",
            Fixed::Assign => b"=",
            Fixed::Plus => b"+",
            Fixed::Minus => b"-",
            Fixed::Star => b"*",
            Fixed::Slash => b"/",
            Fixed::Percent => b"%",
            Fixed::Bang => b"!",
            Fixed::Less => b"<",
            Fixed::Greater => b">",
        }
    }
}
