//! The law of the format, apart from its reader and its writer.
ghost use Rattle.ra_values.specs.Laws.{EachIsSpelled, SpelledOnce, OthersAreNotSpelled, NoneBeginsAnother, BytesAreSpelling};

/// Each value that fits has exactly one spelling, any other has none, and no spelling begins another.
pub fn one_spelling()
    ensures each { EachIsSpelled }
    ensures once { SpelledOnce }
    ensures others { OthersAreNotSpelled }
    ensures prefix { NoneBeginsAnother }
    ensures bytes { BytesAreSpelling }
{}
