//! What every list of steps is told. Each function has an empty body: its clauses are what is proved.
ghost use Rattle.std.specs.Prelude.{◌≡◌, List, []};
ghost use Rattle.ra_router.specs.Hops.{replay};
ghost use Rattle.ra_router.specs.Rows.{run, run_told};
ghost use Rattle.ra_router.specs.Routes.{HopsAnswered, HopsAnsweredThere, HopsAnsweredOnce, HopsDelivered, NextsAnswered, DeliveredInOrder, OthersRefused, OthersRefusedThere, AnswersApart, HopsMade, RepliesSettle, RepliesRefused};
ghost use Rattle.ra_router.specs.declared.ask.Step.{Step};

/// A call to a window that waits is handed over at once, and one to a window that does not wait, later.
pub fn worked_run()
    ensures { replay [] run ≡ run_told }
{}

/// Of every list of steps: a call to a window that made a hop is answered at the first reply of that window behind its delivery, with
/// that reply's value, and nowhere else; each hop is delivered once, with its own argument, and those of a window in order; and a call
/// that made no hop is answered at once, by its error.
pub fn routes()
    ensures answered { (steps : List Step) → HopsAnswered steps }
    ensures there { (steps : List Step) → HopsAnsweredThere steps }
    ensures once { (steps : List Step) → HopsAnsweredOnce steps }
    ensures delivered { (steps : List Step) → HopsDelivered steps }
    ensures nexts { (steps : List Step) → NextsAnswered steps }
    ensures order { (steps : List Step) → DeliveredInOrder steps }
    ensures refused { (steps : List Step) → OthersRefused steps }
    ensures refused_there { (steps : List Step) → OthersRefusedThere steps }
    ensures apart { (steps : List Step) → AnswersApart steps }
    ensures made { (steps : List Step) → HopsMade steps }
    ensures settle { (steps : List Step) → RepliesSettle steps }
    ensures no_call { (steps : List Step) → RepliesRefused steps }
{}
