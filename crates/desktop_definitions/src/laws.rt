//! What ties the code's constants to the definitions.
ghost use Rattle.std.specs.Prelude.{◌≡◌, ◌∷◌, [], length};
ghost use Rattle.desktop_definitions.specs.declared.limits.TheConstants.{MOST_WRITTEN, MOST_HELD, MOST_FILES};
ghost use Rattle.desktop_definitions.specs.declared.limits.TheConstants.{MOST_PATTERN, FONTS, COLOURS};
ghost use Rattle.desktop_definitions.specs.declared.limits.TheConstants.{LEAST_OFFSET, GREATEST_OFFSET};
ghost use Rattle.desktop_definitions.specs.declared.codes.TheConstants.{NO_CARET, NO_COMMAND};
ghost use Rattle.desktop_definitions.specs.declared.codes.TheConstants.{NO_FILE, FULL, TOO_MANY_FILES};
ghost use Rattle.desktop_definitions.specs.declared.codes.TheConstants.{OUTSIDE, NOT_FOUND, BAD_VALUE, TOO_DEEP, TOO_LOW};
ghost use Rattle.desktop_definitions.specs.Limits.{most_written, most_held, most_files, most_pattern};
ghost use Rattle.desktop_definitions.specs.Limits.{number_of_fonts, number_of_colours, least_offset, greatest_offset};
ghost use Rattle.desktop_definitions.specs.Limits.{no_caret, no_command, no_file, full};
ghost use Rattle.desktop_definitions.specs.Limits.{too_many_files, outside, not_found, bad_value, too_deep, too_low};
ghost use Rattle.desktop_definitions.specs.Looks.{fonts};

/// The limits and the codes of refusals are the numbers that the definitions say, and there are as many names of fonts
/// as fonts.
pub fn constants_are_defined()
    ensures limits { (MOST_WRITTEN ∷ MOST_HELD ∷ MOST_FILES ∷ MOST_PATTERN ∷ [])
        ≡ (most_written ∷ most_held ∷ most_files ∷ most_pattern ∷ []) }
    ensures looks { (FONTS ∷ COLOURS ∷ []) ≡ (number_of_fonts ∷ number_of_colours ∷ []) }
    ensures names { length fonts ≡ number_of_fonts }
    ensures least { LEAST_OFFSET ≡ least_offset }
    ensures greatest { GREATEST_OFFSET ≡ greatest_offset }
    ensures refusals { (NO_CARET ∷ NO_COMMAND ∷ NO_FILE ∷ FULL ∷ TOO_MANY_FILES ∷ OUTSIDE ∷ [])
        ≡ (no_caret ∷ no_command ∷ no_file ∷ full ∷ too_many_files ∷ outside ∷ []) }
    ensures others { (NOT_FOUND ∷ BAD_VALUE ∷ TOO_DEEP ∷ TOO_LOW ∷ [])
        ≡ (not_found ∷ bad_value ∷ too_deep ∷ too_low ∷ []) }
{}
