//! The moves under which a view of two endpoints stays one, for layers that run endpoints over links of their own: there the number
//! of a link need not be an endpoint's epoch. Each function has an empty body: its clauses are what is proved.
ghost use Rattle.std.specs.Prelude.{◌≡◌, ℕ, ◌<◌, ◌≤◌, true, false, Some, List, [], ◌∷◌, ◌++◌, length, take};
ghost use Rattle.ra_model.specs.declared.frame.Frame.{Frame};
ghost use Rattle.ra_model.specs.Frames.{joined, body_limit};
ghost use Rattle.ra_model.specs.FrameKinds.{control_frame, pause_frame, resume_frame};
ghost use Rattle.ra_model.specs.Endpoints.{is_linked, shown};
ghost use Rattle.ra_model.specs.Calls.{can_begin, can_feed, begin, finish, say, control, ask_pause, ask_resume, feed, wrote, lose, leave, tick};
ghost use Rattle.ra_model.specs.Links.{Link, other, new_link, at_number, put_number, readable, read_on, written_to, cut_off};
ghost use Rattle.ra_model.specs.Worlds.{Peer};
ghost use Rattle.ra_model.specs.Events.{begun, taken, links_written};
ghost use Rattle.ra_model.specs.Pairs.{messages, IsHonest, AllHonest, IsLater};
ghost use Rattle.ra_model.specs.Views.{View, InEveryView, KeepsViews, OnlyGrows, called, broken_off};

/// Calls of the endpoint at the view's side that read nothing of a link and write nothing on one.
pub fn calls()
    ensures say { (body : List ℕ) (now : ℕ) → KeepsViews (called (say body now)) }
    ensures control { (body : List ℕ) → KeepsViews (called (control body)) }
    ensures pause { KeepsViews (called ask_pause) }
    ensures resume { KeepsViews (called ask_resume) }
    ensures finish { (now : ℕ) → KeepsViews (called (finish now)) }
    ensures tick { (now : ℕ) → KeepsViews (called (tick now)) }
    ensures leave { KeepsViews (called leave) }
    ensures lose { (epoch : ℕ) → KeepsViews (called (lose epoch)) }
    ensures take { (now : ℕ) → KeepsViews (taken now) }
{}

/// Links are made and cut. A later link begins, under any higher epoch, with the bytes that are read of it at once.
/// More of the present link is read, and more is written on it.
pub fn links()
    ensures made { InEveryView (λ start s i j p o links. View start s i j p o (links ++ new_link ∷ [])) }
    ensures cut { InEveryView (λ start s i j p o links. (n : ℕ) (l : Link) → at_number links n ≡ Some l
        → View start s i j p o (put_number links n (cut_off l))) }
    ensures begins { InEveryView (λ start s i j p o links. (n k epoch : ℕ) (l : Link) (now : ℕ)
        → i < n → at_number links n ≡ Some l → k ≤ length (readable s l) → can_begin epoch p.endpoint ≡ true
        → View start s n j (begun epoch (take k (readable s l)) now p) o (put_number links n (read_on s k l))) }
    ensures feeds { InEveryView (λ start s i j p o links. (k epoch : ℕ) (l : Link) (now : ℕ)
        → at_number links i ≡ Some l → k ≤ length (readable s l) → can_feed epoch p.endpoint ≡ true
        → View start s i j (called (feed epoch (take k (readable s l)) now) p) o (put_number links i (read_on s k l))) }
    ensures writes { InEveryView (λ start s i j p o links. (k : ℕ) → k ≤ length (shown p.endpoint)
        → View start s i j (called (wrote k) p) o (links_written s (take k (shown p.endpoint)) i (at_number links i) links)) }
{}

/// An event is cut short: all that is shown goes, the link gets a front of it, and the link is then lost to the endpoint.
pub fn cut_short()
    ensures { InEveryView (λ start s i j p o links. (k : ℕ) → k ≤ length (shown p.endpoint)
        → View start s i j (called broken_off p) o (links_written s (take k (shown p.endpoint)) i (at_number links i) links)) }
{}

/// Links that are not the present one. Whole honest frames are written on a link before it begins, and some frames are honest
/// whoever writes them. Bytes of an earlier link, or of the last one once it is lost, are read and dropped.
pub fn other_links()
    ensures ahead { InEveryView (λ start s i j p o links. (n : ℕ) (l : Link) (frames : List Frame)
        → i < n → at_number links n ≡ Some l → AllHonest start (messages p.endpoint) p.endpoint.received frames
        → View start s i j p o (put_number links n (written_to (other s) (joined frames) l))) }
    ensures skips { InEveryView (λ start s i j p o links. (n k : ℕ) (l : Link)
        → n ≤ i → (n ≡ i → is_linked p.endpoint.phase ≡ false) → at_number links n ≡ Some l → k ≤ length (readable s l)
        → View start s i j p o (put_number links n (read_on s k l))) }

    ensures control { (base : ℕ) (said : List (List ℕ)) (received : ℕ) (body : List ℕ)
        → length body ≤ body_limit → IsHonest base said received (control_frame body) }
    ensures pause { (base : ℕ) (said : List (List ℕ)) (received : ℕ) → IsHonest base said received pause_frame }
    ensures resume { (base : ℕ) (said : List (List ℕ)) (received : ℕ)
        → IsHonest base said received resume_frame }
{}

/// Nothing is taken back: said and heard only grow, and sent, received and acknowledged never fall.
pub fn rising()
    ensures say { (body : List ℕ) (now : ℕ) → OnlyGrows (called (say body now)) }
    ensures control { (body : List ℕ) → OnlyGrows (called (control body)) }
    ensures pause { OnlyGrows (called ask_pause) }
    ensures resume { OnlyGrows (called ask_resume) }
    ensures begin { (epoch : ℕ) (chunk : List ℕ) (now : ℕ) → OnlyGrows (begun epoch chunk now) }
    ensures finish { (now : ℕ) → OnlyGrows (called (finish now)) }
    ensures feed { (epoch : ℕ) (piece : List ℕ) (now : ℕ) → OnlyGrows (called (feed epoch piece now)) }
    ensures wrote { (n : ℕ) → OnlyGrows (called (wrote n)) }
    ensures lose { (epoch : ℕ) → OnlyGrows (called (lose epoch)) }
    ensures broken_off { OnlyGrows (called broken_off) }
    ensures leave { OnlyGrows (called leave) }
    ensures tick { (now : ℕ) → OnlyGrows (called (tick now)) }
    ensures take { (now : ℕ) → OnlyGrows (taken now) }
    ensures none { OnlyGrows (λ p. p) }
    ensures both { (p q r : Peer) → IsLater p q → IsLater q r → IsLater p r }
{}
