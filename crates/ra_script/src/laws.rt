//! What reading and printing have to do with each other.
ghost use Rattle.std.specs.Prelude.{◌≡◌, List, Ok};
ghost use Rattle.ra_script.specs.declared.line.Line.{Line};
ghost use Rattle.ra_script.specs.Printable.{IsPrintable, ended_text, parted_text};
ghost use Rattle.ra_script.specs.Reading.{script_at};

/// Lines that are printed with a newline after each, or with one between each two, are read again as the same lines.
pub fn printed_is_read()
    ensures ended { (lines : List Line) → IsPrintable lines → script_at (ended_text lines) ≡ Ok lines }
    ensures parted { (lines : List Line) → IsPrintable lines → script_at (parted_text lines) ≡ Ok lines }
{}
