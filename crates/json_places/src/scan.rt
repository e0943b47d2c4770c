// The lexer's modes over the bytes of a text, without the tokens' values.
ghost use Rattle.std.specs.Prelude.{◌≡◌, ◌≤◌, Some, None, IfSome, if◌then◌else◌};
ghost use Rattle.json.specs.Lex.{class, between, lex};
ghost use Rattle.json_places.specs.Scan.{mode_of, class_of, next_mode, begun};
ghost use Rattle.json_places.specs.Starts.{token_count, BeginsAt};

/// Where the lexer stands.
#[derive(Clone, Copy, Debug, PartialEq, Eq, Drop)]
enum Mode {
    Between,
    InWord,
    InString,
    InEscape,
}

/// What a byte is to the lexer.
#[derive(Clone, Copy, Debug, PartialEq, Eq, Drop)]
enum Class {
    Quote,
    Backslash,
    Operator,
    Space,
    Other,
}

fn class_of(byte: u8) -> Class
    ensures { class_of result ≡ class byte }
{
    match byte {
        b'"' => Class::Quote,
        b'\\' => Class::Backslash,
        b'{' | b'}' | b'[' | b']' | b':' | b',' => Class::Operator,
        b' ' | b'\t' | b'\n' | b'\r' => Class::Space,
        _ => Class::Other,
    }
}

fn next_mode(mode: Mode, kind: Class) -> Mode
    ensures { mode_of result ≡ next_mode (mode_of mode) (class_of kind) }
{
    match (mode, kind) {
        (Mode::Between, Class::Quote) => Mode::InString,
        (Mode::Between | Mode::InWord, Class::Operator | Class::Space) => Mode::Between,
        (Mode::Between | Mode::InWord, _) => Mode::InWord,
        (Mode::InString, Class::Quote) => Mode::Between,
        (Mode::InString, Class::Backslash) => Mode::InEscape,
        (Mode::InString | Mode::InEscape, _) => Mode::InString,
    }
}

/// Checks whether a token begins at a byte of this class. A comma and a colon are no tokens.
fn begins_token(mode: Mode, kind: Class, byte: u8) -> bool
    requires { class_of kind ≡ class byte }
    ensures { (if result then 1 else 0) ≡ begun (mode_of mode) (class_of kind) byte }
{
    match (mode, kind) {
        (Mode::Between, Class::Quote | Class::Backslash | Class::Other) => true,
        (Mode::Between | Mode::InWord, Class::Operator) => byte != b',' && byte != b':',
        _ => false,
    }
}

/// Returns the byte at which the token of this number begins, if there are so many tokens. Tokens
/// and bytes are counted from 0.
pub(crate) fn byte_of_token(text: &[u8], number: usize) -> Option<usize>
    ensures begins { IfSome result (λ byte. BeginsAt text.now number byte) }
    ensures none { result ≡ None → token_count (lex between text.now) ≤ number }
{
    let mut mode = Mode::Between;
    let mut left = number;
    for (at, byte) in text.iter().enumerate() {
        let kind = class_of(*byte);
        if begins_token(mode, kind, *byte) {
            if left == 0 {
                return Some(at);
            }
            left -= 1;
        }
        mode = next_mode(mode, kind);
    }
    None
}
