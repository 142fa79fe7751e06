//! Laws of the tokens of each source.
ghost use Rattle.std.specs.Prelude.{◌≡◌, List, [], ◌∷◌, ◌++◌, flat_map, length};
ghost use Rattle.std.specs.List.{All};
ghost use Rattle.tangle_lines.specs.Reading.{SourceLine};
ghost use Rattle.tangle_text.specs.Text.{texts_of, text_from};
ghost use Rattle.tangle_lexer.specs.declared.modes.Mode.TheVariants as mode;
ghost use Rattle.tangle_lexer.specs.declared.tokens.Token.{Token};
ghost use Rattle.tangle_lexer.specs.Lexemes.{is_in_directive};
ghost use Rattle.tangle_lexer.specs.Steps.{LexemeStart, lexeme_starts, first_state, all_tokens};
ghost use Rattle.tangle_lexer.specs.LinesOfParts.{c_parts, lines_of_c, uses_in_directive};
ghost use Rattle.tangle_lexer.specs.LinesOfParts.{with_use_fault, HasInnerEndsAsDirective};
ghost use Rattle.tangle_lexer.specs.LinesOfParts.{is_directive, open_line, last_body, tokens_of};

/// Wherever a lexeme of a C part begins, the lexer knows whether that is in a directive, that is,
/// whether the line of C that the tokens before it leave open is one.
pub fn the_lexer_knows_directives()
    ensures { (lines : List SourceLine) (before after : List LexemeStart) (here : LexemeStart)
        → lexeme_starts 0 (first_state (length lines)) (text_from 0 lines)
        ≡ before ++ here ∷ after → here.state.mode ≡ mode.CPart
        → is_in_directive here.state ≡ is_directive (texts_of lines)
        (open_line (texts_of lines) (last_body (tokens_of before))) }
{}

/// In each C part, only directives have inner line ends, and the uses and `@h` in directives are
/// those that have the fault `UseInDirective`.
pub fn directives_are_lines_of_c()
    ensures inner { (lines : List SourceLine) → All (λ part.
        All (HasInnerEndsAsDirective (texts_of lines)) (lines_of_c (texts_of lines) [] part))
        (c_parts (all_tokens lines)) }
    ensures uses { (lines : List SourceLine) → All (λ part. with_use_fault part
        ≡ flat_map (uses_in_directive (texts_of lines)) (lines_of_c (texts_of lines) [] part))
        (c_parts (all_tokens lines)) }
{}
