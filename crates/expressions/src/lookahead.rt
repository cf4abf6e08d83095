// Looking ahead: what the token from a place on is to an expression.
ghost use Rattle.std.specs.Prelude.{◌≡◌};
ghost use Rattle.scanner.specs.Code.Scanning.{Peeks};
ghost use Rattle.expressions.specs.Code.Lookahead.{role, starts as starts_part, parts_choice};

use grammar::ByteRange;
use scanner::Lexeme;
use scanner::tokens::scan;
use syntax::{Leaf, Prefix, Sign, Suffix, Token};

// What a token is to an expression: an operand begins with it, or it is an operator or a slash, or none of these.
#[derive(Clone, Copy)]
pub enum Role {
    Name(usize),
    Range(ByteRange),
    Leaf(Leaf),
    Opening,
    Prefix(Prefix),
    Suffix(Suffix),
    Slash,
    Other,
}

fn sign_role(s: Sign) -> Role
    ensures { result ≡ role (Token.Sign s) }
{
    match s {
        Sign::Operand(a) => Role::Leaf(a),
        Sign::Before(p) => Role::Prefix(p),
        Sign::After(x) => Role::Suffix(x),
        Sign::Slash => Role::Slash,
        Sign::Opening => Role::Opening,
        Sign::Closing | Sign::Equals | Sign::Semicolon => Role::Other,
    }
}

pub fn role_of(token: Token) -> Role
    ensures { result ≡ role token }
{
    match token {
        Token::Name(long) => Role::Name(long),
        Token::Sign(s) => sign_role(s),
        Token::Range(ends) => Role::Range(ends),
        Token::Unknown => Role::Other,
    }
}

// The lexeme from a place on; where there is none, a token that is nothing to an expression.
pub fn peek(text: &[u8], at: usize) -> Lexeme
    ensures { Peeks text.now at result }
{
    scan(text, at).unwrap_or(Lexeme {
        token: Token::Unknown,
        offset: at,
        next: at,
    })
}

// Whether a part of a sequence begins with it.
pub fn starts(ahead: Role) -> bool
    ensures { result ≡ starts_part ahead }
{
    matches!(
        ahead,
        Role::Name(_) | Role::Range(_) | Role::Leaf(_) | Role::Opening | Role::Prefix(_)
    )
}

// Whether a choice goes on after it.
pub fn is_slash(ahead: Role) -> bool
    ensures { result ≡ parts_choice ahead }
{
    matches!(ahead, Role::Slash)
}
