//! The tokens of a text of bytes.

ghost use Rattle.std.specs.Str.{chars};
ghost use Rattle.std.specs.Prelude.{take, ℕ, ◌≤◌, ◌≡◌, ◌<◌, ◌^◌, ◌++◌, ◌∷◌, [], OnOk, length, IfOk, IfErr};
ghost use Rattle.kernel_lexer.specs.Spelling.{bytes};
ghost use Rattle.kernel_lexer.specs.Lexing.{AreTokens};
ghost use Rattle.kernel_lexer.specs.Cutting.{CharsEnd, FrontEnd};
ghost use Rattle.kernel_lexer.specs.Texts.{IsFront, AreTextTokens, IsTextFault, TextEnd};

use crate::cut::{Cut, TokenRule, cut_token};
use crate::lex_end::LexEnd;
use crate::scan::{byte_len, skip};
use crate::token::Token;
use comp_graph::NoMemory;
use std::alloc::Global;

fn append(found: &mut Vec<Token>, token: Token) -> Result<(), NoMemory>
    ensures { OnOk result (found.new.items ≡ found.old.items ++ token ∷ []) }
{
    found.push(token)?;
    Ok(())
}

/// The tokens of the characters of a text.
fn tokens_of(alloc: Global, text: &[char]) -> Result<Vec<Token>, LexEnd>
    requires few { length text.now < 2 ^ 17 }
    requires small { bytes text.now < 2 ^ 17 }
    ensures tokens { IfOk result (λ v. AreTokens (bytes text.now) text.now v.items) }
    ensures fault { IfErr result (CharsEnd text.now) }
{
    let mut found = Vec::new(alloc);
    let (mut rest, mut at) = skip(text, 0);
    'tokens: while !rest.is_empty() {
        match cut_token(rest) {
            Cut::NoToken(fault) => {
                return Err(LexEnd::Fault {
                    code: fault.code(),
                    at,
                });
            }
            Cut::Token(kind, len) => {
                let (word, behind) = rest.split_at(len);
                let to = at + byte_len(word) as u32;
                append(&mut found, Token { kind, from: at, to })?;
                (rest, at) = skip(behind, to);
            }
        }
    }
    Ok(found)
}

/// The longest front that is UTF-8.
fn front(text: &[u8]) -> &str
    ensures { (n : ℕ) × IsFront text.now n × (result.now ≡ take n text.now) }
{
    match str::from_utf8(text) {
        Ok(whole) => whole,
        Err(fault) => match str::from_utf8(&text[..fault.valid_up_to()]) {
            Ok(front) => front,
            Err(_) => unreachable!(),
        },
    }
}

fn chars_of(alloc: Global, front: &str) -> Result<Vec<char>, NoMemory>
    ensures chars { IfOk result (λ v. v.items ≡ chars front.now) }
    ensures few { IfOk result (λ v. length v.items ≤ length front.now) }
    ensures bytes { IfOk result (λ v. bytes v.items ≡ length front.now) }
{
    let text: Vec<char> = front.chars().collect(alloc)?;
    Ok(text)
}

fn tokens_of_front(alloc: Global, front: &str) -> Result<Vec<Token>, LexEnd>
    requires { length front.now < 2 ^ 17 }
    ensures tokens { IfOk result (λ v. AreTokens (length front.now) (chars front.now) v.items) }
    ensures fault { IfErr result (FrontEnd front.now) }
{
    let text = chars_of(alloc, front)?;
    tokens_of(alloc, text.as_slice())
}

/// The tokens of a text of at most 65,536 bytes, in the order of the text, by the rules at the head of this crate.
///
/// # Errors
///
/// [`LexEnd::Fault`] with the code and the place of the text's first fault, exactly where it has one: 1 for a byte that begins no
/// character or no token, 2 for a token that is too big. [`LexEnd::NoMemory`] where memory was wanted and not found.
pub fn tokens(alloc: Global, text: &[u8]) -> Result<Vec<Token>, LexEnd>
    requires { length text.now ≤ 65536 }
    ensures tokens { IfOk result (λ v. AreTextTokens text.now v.items) }
    ensures faultless { IfOk result (λ _. (code at : ℕ) → IsTextFault text.now code at → ⊥) }
    ensures fault { IfErr result (TextEnd text.now) }
{
    let found = tokens_of_text(alloc, text)?;
    Ok(found)
}

// The tokens of a text, or its first fault.
fn tokens_of_text(alloc: Global, text: &[u8]) -> Result<Vec<Token>, LexEnd>
    requires { length text.now ≤ 65536 }
    ensures tokens { IfOk result (λ v. AreTextTokens text.now v.items) }
    ensures fault { IfErr result (TextEnd text.now) }
{
    let front = front(text);
    let found = tokens_of_front(alloc, front)?;
    if front.len() == text.len() {
        Ok(found)
    } else {
        Err(LexEnd::Fault {
            code: TokenRule::BadByte.code(),
            at: front.len() as u32,
        })
    }
}
