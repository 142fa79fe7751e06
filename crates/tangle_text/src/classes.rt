//! Tests of bytes that the loops over the text make most. Each is one look-up in a table.
ghost use Rattle.std.specs.Prelude.{◌≡◌};
ghost use Rattle.tangle_text.specs.Bytes as spec;
ghost use Rattle.tangle_text.specs.Regions as regions;
ghost use Rattle.tangle_text.specs.Runs as runs;

/// What the tests say of each byte of a class.
#[derive(Clone, Copy)]
struct ByteClass {
    is_word: bool,
    is_ordinary: bool,
    is_plain: bool,
    is_sign: bool,
}

/// `@`, `"` or `'`, which opens something longer, and has a meaning inside of it; and `\`, which may
/// continue a line, and has a meaning in quoted texts.
const DELIMITER: ByteClass = ByteClass {
    is_word: false,
    is_ordinary: false,
    is_plain: false,
    is_sign: false,
};

/// White space.
const WHITE: ByteClass = ByteClass {
    is_ordinary: true,
    ..DELIMITER
};

/// `/`, which may open a comment.
const SLASH: ByteClass = WHITE;

/// `<`, which may open a file name.
const LESS: ByteClass = ByteClass {
    is_plain: true,
    ..SLASH
};

/// A letter, a digit, `_`, `$` or a byte past 127.
const WORD: ByteClass = ByteClass {
    is_word: true,
    ..LESS
};

/// Any byte that is in no other class: a sign.
const SIGN: ByteClass = ByteClass {
    is_sign: true,
    ..LESS
};

/// `*` or `>`: a sign with a meaning in comments or file names.
const SPECIAL: ByteClass = ByteClass {
    is_ordinary: false,
    ..SIGN
};

/// The class of each byte.
const CLASSES: [ByteClass; 256] = [
    SIGN, SIGN, SIGN, SIGN, SIGN, SIGN, SIGN, SIGN, SIGN, WHITE, SIGN, WHITE, WHITE, WHITE, SIGN,
    SIGN, SIGN, SIGN, SIGN, SIGN, SIGN, SIGN, SIGN, SIGN, SIGN, SIGN, SIGN, SIGN, SIGN, SIGN, SIGN,
    SIGN, WHITE, SIGN, DELIMITER, SIGN, WORD, SIGN, SIGN, DELIMITER, SIGN, SIGN, SPECIAL, SIGN,
    SIGN, SIGN, SIGN, SLASH, WORD, WORD, WORD, WORD, WORD, WORD, WORD, WORD, WORD, WORD, SIGN,
    SIGN, LESS, SIGN, SPECIAL, SIGN, DELIMITER, WORD, WORD, WORD, WORD, WORD, WORD, WORD, WORD,
    WORD, WORD, WORD, WORD, WORD, WORD, WORD, WORD, WORD, WORD, WORD, WORD, WORD, WORD, WORD, WORD,
    WORD, WORD, SIGN, DELIMITER, SIGN, SIGN, WORD, SIGN, WORD, WORD, WORD, WORD, WORD, WORD, WORD,
    WORD, WORD, WORD, WORD, WORD, WORD, WORD, WORD, WORD, WORD, WORD, WORD, WORD, WORD, WORD, WORD,
    WORD, WORD, WORD, SIGN, SIGN, SIGN, SIGN, SIGN, WORD, WORD, WORD, WORD, WORD, WORD, WORD, WORD,
    WORD, WORD, WORD, WORD, WORD, WORD, WORD, WORD, WORD, WORD, WORD, WORD, WORD, WORD, WORD, WORD,
    WORD, WORD, WORD, WORD, WORD, WORD, WORD, WORD, WORD, WORD, WORD, WORD, WORD, WORD, WORD, WORD,
    WORD, WORD, WORD, WORD, WORD, WORD, WORD, WORD, WORD, WORD, WORD, WORD, WORD, WORD, WORD, WORD,
    WORD, WORD, WORD, WORD, WORD, WORD, WORD, WORD, WORD, WORD, WORD, WORD, WORD, WORD, WORD, WORD,
    WORD, WORD, WORD, WORD, WORD, WORD, WORD, WORD, WORD, WORD, WORD, WORD, WORD, WORD, WORD, WORD,
    WORD, WORD, WORD, WORD, WORD, WORD, WORD, WORD, WORD, WORD, WORD, WORD, WORD, WORD, WORD, WORD,
    WORD, WORD, WORD, WORD, WORD, WORD, WORD, WORD, WORD, WORD, WORD, WORD, WORD, WORD, WORD, WORD,
    WORD, WORD, WORD, WORD, WORD, WORD, WORD, WORD,
];

/// Whether a byte is a letter, a digit, `_`, `$` or past 127.
pub fn is_word_byte(byte: u8) -> bool
    ensures { result ≡ spec.is_word_byte byte }
{
    CLASSES[byte as usize].is_word
}

/// Whether a byte has no meaning in comments, control texts, quoted and verbatim texts.
pub(crate) fn is_ordinary(byte: u8) -> bool
    ensures { result ≡ regions.is_ordinary byte }
{
    CLASSES[byte as usize].is_ordinary
}

/// Whether a byte opens nothing longer than a word in a C part, and is no white space and no
/// backslash.
#[inline(always)]
pub(crate) fn is_plain(byte: u8) -> bool
    ensures { result ≡ runs.is_plain byte }
{
    CLASSES[byte as usize].is_plain
}

/// Whether a byte is a sign wherever a lexeme begins with it, and no more. `/` is not, since it may
/// open a comment, and `\` is not, since it may continue a line.
#[inline(always)]
pub fn is_sign_byte(byte: u8) -> bool
    ensures { result ≡ spec.is_sign_byte byte }
{
    CLASSES[byte as usize].is_sign
}
