// The kinds of tokens.
ghost use Rattle.std.specs.Prelude.{◌≡◌};
ghost use Rattle.tokens.specs.Kinds.{kind_by};

use crate::codes::{
    AND, ASSIGN, CLOSE_BRACKET, CLOSE_CURLY, CLOSE_PAREN, COMMA, DIVIDE, DIVIDE_ASSIGN, DOT, ELSE,
    END, EQUAL, FALSE, FOR, IF, IN, INFERIOR, INFERIOR_OR_EQUAL, MINUS, MINUS_ASSIGN, MULTIPLY,
    MULTIPLY_ASSIGN, NAME, NEWLINE, NOT, NOT_EQUAL, ON, OPEN_BRACKET, OPEN_CURLY, OPEN_PAREN, OR,
    PAYS, PLUS, PLUS_ASSIGN, POWER, SEMICOLON, STRING, SUPERIOR, SUPERIOR_OR_EQUAL, THEN, TRUE,
};

// A number token holds a number or a truth value.
#[derive(Clone, Copy)]
pub enum Literal {
    Number(f64),
    Truth(bool),
}

// What a token is.
#[derive(Clone, Copy)]
pub enum Kind {
    Value(Literal),
    Identifier,
    String,
    Plus,
    PlusAssign,
    Minus,
    MinusAssign,
    Multiply,
    MultiplyAssign,
    Divide,
    DivideAssign,
    Power,
    Assign,
    Equal,
    NotEqual,
    Superior,
    Inferior,
    SuperiorOrEqual,
    InferiorOrEqual,
    OpenParen,
    CloseParen,
    OpenCurlyParen,
    CloseCurlyParen,
    OpenBracket,
    CloseBracket,
    Comma,
    Dot,
    Semicolon,
    And,
    Or,
    Not,
    If,
    Then,
    Else,
    End,
    For,
    Pays,
    On,
    In,
    Newline,
    Eof,
}

// The kind that a code stands for, but for that of a number. A function and no `From`: callers name it, which may not change.
#[tactic(auto, unfolding(crate::specs::Computing::computing))]
pub fn kind_of(code: u8) -> Kind
    ensures { result ≡ kind_by code }
{
    match code {
        NAME => Kind::Identifier,
        TRUE => Kind::Value(Literal::Truth(true)),
        FALSE => Kind::Value(Literal::Truth(false)),
        STRING => Kind::String,
        PLUS => Kind::Plus,
        MINUS => Kind::Minus,
        MULTIPLY => Kind::Multiply,
        DIVIDE => Kind::Divide,
        POWER => Kind::Power,
        EQUAL => Kind::Equal,
        NOT_EQUAL => Kind::NotEqual,
        SUPERIOR => Kind::Superior,
        INFERIOR => Kind::Inferior,
        SUPERIOR_OR_EQUAL => Kind::SuperiorOrEqual,
        INFERIOR_OR_EQUAL => Kind::InferiorOrEqual,
        AND => Kind::And,
        OR => Kind::Or,
        PLUS_ASSIGN => Kind::PlusAssign,
        MINUS_ASSIGN => Kind::MinusAssign,
        MULTIPLY_ASSIGN => Kind::MultiplyAssign,
        DIVIDE_ASSIGN => Kind::DivideAssign,
        PAYS => Kind::Pays,
        ASSIGN => Kind::Assign,
        IF => Kind::If,
        FOR => Kind::For,
        OPEN_PAREN => Kind::OpenParen,
        CLOSE_PAREN => Kind::CloseParen,
        OPEN_CURLY => Kind::OpenCurlyParen,
        CLOSE_CURLY => Kind::CloseCurlyParen,
        OPEN_BRACKET => Kind::OpenBracket,
        CLOSE_BRACKET => Kind::CloseBracket,
        COMMA => Kind::Comma,
        DOT => Kind::Dot,
        SEMICOLON => Kind::Semicolon,
        ELSE => Kind::Else,
        ON => Kind::On,
        IN => Kind::In,
        THEN => Kind::Then,
        END => Kind::End,
        NOT => Kind::Not,
        NEWLINE => Kind::Newline,
        _ => Kind::Eof,
    }
}
