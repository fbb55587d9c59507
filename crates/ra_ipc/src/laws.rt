//! The law of the format of packets, apart from its reader and its writer, and the law over both ends of a session's channels.
ghost use Rattle.ra_ipc.specs.ChannelLaws.{AnsweredAsTold, SettlesOnce, SettlesByItsOwn, AnsweredOnce, NeverClashes, FiresInOrder, FiredWhileListening};
ghost use Rattle.ra_ipc.specs.ClientRuns.{SettlesOnceAlone, SettlesByItsOwnAlone};
ghost use Rattle.ra_ipc.specs.ServerRuns.{AnsweredOncePerPromise};
ghost use Rattle.ra_ipc.specs.Deliveries.{EachClientHears, ServerHears};
ghost use Rattle.ra_ipc.specs.Laws.{EachIsSpelled, OthersAreNotSpelled, NoneBeginsAnother, SpelledIsRead};

/// Each message that fits has exactly one spelling, any other has none, no spelling begins another, and a spelling is read as
/// its message.
pub fn one_spelling()
    ensures each { EachIsSpelled }
    ensures others { OthersAreNotSpelled }
    ensures prefix { NoneBeginsAnother }
    ensures read { SpelledIsRead }
{}

/// What holds of a client and a server of channels after every list of calls, cancels, listens, disposes, registrations, answers,
/// fires, ticks and deliveries, of which each way a front has come.
pub fn channels()
    ensures settled { SettlesOnce }
    ensures own { SettlesByItsOwn }
    ensures answered { AnsweredOnce }
    ensures told { AnsweredAsTold }
    ensures fires { FiresInOrder }
    ensures fired { FiredWhileListening }
    ensures apart { NeverClashes }
{}

/// What a channel client hands up, whatever its peer sends: each call ends at most once, by its own cancel or the first response that was
/// heard behind it.
pub fn client_alone()
    ensures once { SettlesOnceAlone }
    ensures own { SettlesByItsOwnAlone }
{}

/// What a channel server answers, whatever its peer sends: each call at most once before it hears another one of the same id, and no
/// call that it did not hear.
pub fn server_alone()
    ensures { AnsweredOncePerPromise }
{}

/// What a delivery does to an end of a pair is what its packet does to that end.
pub fn deliveries()
    ensures server { ServerHears }
    ensures client { EachClientHears }
{}
