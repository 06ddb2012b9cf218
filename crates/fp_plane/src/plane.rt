//! The plane: what threads share.
//!
//! Who seals holds the hall's lock while it draws, settles and shows, and not while it calls the
//! disk. The flusher has a condition of its own to sleep on, so that handing an edit in wakes
//! nobody else. Editors sleep at the bell that the revision of their edit picks; subscribers at one
//! condition for all. Where memory is wanting, what is under way is
//! tried again after a millisecond, without the lock.

ghost use Rattle.std.specs.Prelude.{◌≡◌, ◌≤◌, ◌++◌, ◌∷◌, [], true, None, IfOk, IfErr, MatchResult};
ghost use Rattle.fp_edit.specs.Edits.{change_in, proposal_of};
ghost use Rattle.fp_group_commit.specs.Tokens.{front_revision};
ghost use Rattle.fp_publish.specs.Fronts.{Begins};
ghost use Rattle.fp_publish.specs.Seats.{IsNews, had_by};
ghost use Rattle.fp_stream.specs.declared.hello.Hello.TheVariants.{Has};
ghost use Rattle.fp_hall.specs.Editors.{said_at};
ghost use Rattle.fp_hall.specs.Hall.{IsDeskOf, IsNewDesk};
ghost use Rattle.fp_hall.specs.Places.{StandsAt};
ghost use Rattle.fp_hall.specs.declared.editor.Said.TheVariants.{Unknown};

use crate::bells::Bells;
use crate::evaluating::{Evaluating, Evaluations};
use fp_committer::DeskHalf;
use fp_desk::Ticket;
use fp_edit::Edit;
use fp_fronts::Growing;
use fp_group_commit::Told;
use fp_hall::{
    Accepted, Closer, Editor, EvaluatorsUsed, GivenUp, Gone, Hall, Naming, PlaneTicket, Refusal,
    TakenSeat,
};
use fp_publish::{Evaluator, Handed, SeatsUsed, Shown};
use fp_stream::Hello;
use std::alloc::{AllocError, Global};
use std::mem;
use std::sync::atomic::{AtomicUsize, Ordering};
use std::sync::{Arc, Condvar, CondvarTimeouts, Mutex, MutexGuard, Wait};
use std::time::{Clock, Duration};

// What the handles of a plane share.
#[derive(Drop)]
pub(crate) struct Shared<K: Naming, R: Wait + Drop> {
    pub(crate) rt: R,
    pub(crate) hall: Mutex<Hall<K, R>>,
    // How many edits waited when one was handed in or a batch drawn last: a hint, read without the
    // hall's lock by a flusher that lets editors come back.
    pub(crate) waiting: AtomicUsize,
    // For the flusher: an edit waits, or the plane is to stop or is over.
    pub(crate) work: Condvar,
    // For editors: the edit of a revision was settled and shown, or the plane is over.
    pub(crate) bells: Bells,
    // For subscribers: something was shown, the plane is over, or it is looked who has left.
    pub(crate) news: Condvar,
    // For whoever publishes, before it locks the hall.
    pub(crate) evaluations: Evaluations,
}

impl<K: Naming, R: Wait + Drop> Shared<K, R> {
    // Notes how many edits wait, under the lock, for who looks without it.
    pub(crate) fn note_waiting(&self, hall: &Hall<K, R>) {
        self.waiting.store(hall.waiting_count(), Ordering::SeqCst);
    }
}

/// A handle of a plane: one desk and one board under a lock, which editors, evaluators, subscribers
/// and a flusher share. A plane is over the store that `K` names.
#[derive(Drop)]
pub struct Plane<K: Naming, R: Wait + Drop> {
    pub(crate) shared: Arc<Shared<K, R>, Global>,
}

impl<K: Naming, R: Wait + Copy + Drop> Plane<K, R> {
    /// A plane over the desk's half of the committer that it is of, and what alone closes it. Where
    /// memory is wanting the half is lost, and the store's disk is to be opened again.
    pub fn new(
        rt: R,
        alloc: Global,
        desk: DeskHalf,
        accepted: Growing<Accepted>,
    ) -> Result<(Plane<K, R>, Closer<K>), AllocError>
        // The half is the desk's of the committer that `K` names.
        requires ours { IsDeskOf K.store K.desk_lists K.store_lists desk }
        // No edit was handed in yet.
        requires fresh { IsNewDesk desk.desk }
        // The list has the name that `K` gives to what the plane accepts, and is empty.
        requires named { accepted.name ≡ K.accepted }
        requires none { accepted.log ≡ [] }
    {
        let (hall, closer) = Hall::new(rt, alloc, desk, accepted)?;
        let shared = Shared {
            rt,
            hall: Mutex::new(hall),
            waiting: AtomicUsize::new(0),
            work: Condvar::new(),
            bells: Bells::new(alloc)?,
            news: Condvar::new(),
            evaluations: Evaluations::new(),
        };
        let plane = Plane {
            shared: Arc::new(alloc, shared)?,
        };
        Ok((plane, closer))
    }
}

impl<K: Naming, R: Wait + Drop> Plane<K, R> {
    /// One handle more. With the last one goes the board, which may wait for evaluators that
    /// don't rest.
    pub fn try_copy(&self) -> Result<Plane<K, R>, AllocError> {
        Ok(Plane {
            shared: Arc::try_clone(&self.shared)?,
        })
    }

    // ---- editors

    /// Hands an edit of this editor in, behind those that wait, and wakes the flusher. A hall alone
    /// makes a `Refusal`; `wait` tells what becomes of a ticket's edit.
    pub fn submit(&self, edit: Edit, editor: &mut Editor) -> Result<PlaneTicket<K>, (Refusal, Edit)>
        // `Err`: the refusal names the edit, with what its editor expected.
        ensures refused { IfErr result (λ e. e.0.edit ≡ proposal_of edit) }
        // `Ok`: the ticket names the plane's store and the edit handed in, with what its editor
        // expected.
        ensures ticket { IfOk result (λ t. (t.store ≡ K.store) × (t.edit ≡ proposal_of edit)) }
        // `Err`: the edit comes back.
        ensures given_back { IfErr result (λ e. e.1 ≡ edit) }
        // The hall said to the editor that it is taken, or why it isn't, and nothing else.
        ensures said { editor.new ≡ editor.old ++ said_at result ∷ [] }
    {
        let shared = &self.shared;
        let mut hall = shared.hall.lock(&shared.rt);
        let submitted = hall.submit(edit, editor);
        shared.note_waiting(&hall);
        drop(hall);
        shared.work.notify_one();
        submitted
    }

    /// Waits until the ticket's edit is settled and shown, and gives the ticket back with what is
    /// told of it; or gives it up, where no edit is settled any more. A hall alone gives one up
    /// (`Hall::give_up`).
    pub fn wait(
        &self,
        ticket: PlaneTicket<K>,
        editor: &mut Editor,
    ) -> Result<(Ticket, Told, Shown), GivenUp>
        // The ticket that comes back, or is given up, is this one.
        ensures same { MatchResult result (λ p. p.0 ≡ ticket) (λ g. g ≡ ticket) }
        // `Ok`: what is told is of the plane's store, and has at least the ticket's revision.
        ensures told { IfOk result (λ p.
            (p.1.store ≡ K.store) × (ticket.revision ≤ front_revision p.1)) }
        // `Ok`: the ticket's edit is the one that makes its revision, in what is told.
        ensures place { IfOk result (λ p.
            StandsAt p.1 ticket.revision (change_in ticket.edit)) }
        // `Ok`: what is shown goes on from what is told.
        ensures shown { IfOk result (λ p. Begins p.1 p.2) }
        // `Ok`: the hall said nothing more to the editor. `Err`: that the ticket is given up.
        ensures said { MatchResult result (λ _. editor.new ≡ editor.old)
            (λ g. editor.new ≡ editor.old ++ Unknown g ∷ []) }
    {
        let shared = &self.shared;
        let bell = shared.bells.of(ticket.revision());
        let mut ticket = ticket;
        let mut hall = shared.hall.lock(&shared.rt);
        for _ in shared.rt.forever() {
            if let Some((told, shown)) = hall.answer(&ticket) {
                return Ok((ticket.into_ticket(), told, shown));
            }
            ticket = match hall.give_up(ticket, editor) {
                Ok(given_up) => return Err(given_up),
                Err(ticket) => ticket,
            };
            hall = bell.wait(&shared.rt, hall);
        }
        unreachable!()
    }

    // ---- evaluators

    /// An evaluator of the plane's board, for a thread that replies. Refused where all 16 are
    /// out.
    pub fn evaluator(&self) -> Result<Evaluator, EvaluatorsUsed>
        // `Ok`: it is of the plane's store, and is lent nothing.
        ensures { IfOk result (λ e. (e.known.store ≡ K.store) × (e.lent ≡ None)) }
    {
        self.shared.hall.lock(&self.shared.rt).evaluator()
    }

    /// Notes that an evaluation begins, which ends where this is let go of. Whoever publishes waits
    /// for those that are noted without holding anybody up.
    pub fn begin_evaluation(&self) -> Evaluating<'_> {
        self.shared.evaluations.begin()
    }

    /// Takes an evaluator back.
    pub fn give_back(&self, evaluator: Evaluator)
        // The evaluator is of the plane's store.
        requires { evaluator.known.store ≡ K.store }
    {
        self.shared.hall.lock(&self.shared.rt).give_back(evaluator)
    }

    // ---- subscribers

    /// A seat for a subscriber that has this, which has to be given back. Refused where all 32 are
    /// taken.
    pub fn seat(&self, hello: Hello) -> Result<TakenSeat<K>, SeatsUsed>
        // `Ok`: the seat has what was said.
        ensures { IfOk result (λ s. had_by s ≡ hello) }
    {
        self.shared.hall.lock(&self.shared.rt).seat(hello)
    }

    /// Takes a seat back.
    pub fn unseat(&self, seat: TakenSeat<K>) {
        self.shared.hall.lock(&self.shared.rt).unseat(seat)
    }

    /// Wakes the subscribers that wait, which are asked then whether they have left. So their
    /// seats are free at once; one that was writing its frame then, or was just asked, may be asked
    /// a second later.
    pub fn look_who_left(&self) {
        self.shared.hall.lock(&self.shared.rt).look();
        self.shared.news.notify_all();
    }

    // ---- the end

    /// Closes the hall, by what was made with it: no edit is taken any more, what was taken goes on,
    /// and the flusher is woken, and subscribers, which may go where sealing broke off before. To wake
    /// them wants the lock of a hall that was closed.
    pub fn close(&self, closer: Closer<K>) {
        self.tell_closed(self.closed(closer));
    }

    // The lock, under which the hall is closed.
    fn closed(&self, closer: Closer<K>) -> MutexGuard<'_, Hall<K, R>>
        ensures stopped { result.value.desk.stopped ≡ true }
        ensures closing { result.value.closing ≡ true }
    {
        let mut hall = self.shared.hall.lock(&self.shared.rt);
        hall.close(closer);
        hall
    }

    // Lets go of the lock of a hall that was closed, and wakes the flusher and subscribers.
    fn tell_closed(&self, hall: MutexGuard<'_, Hall<K, R>>)
        requires stopped { hall.value.desk.stopped ≡ true }
        requires closing { hall.value.closing ≡ true }
    {
        drop(hall);
        self.shared.work.notify_all();
        self.shared.news.notify_all();
    }
}

impl<K: Naming, R: Wait + Clock + Drop> Plane<K, R> {
    /// Waits until something is shown that the seat's subscriber hasn't got, and hands it that.
    /// `Err` where the plane was stopped or it has left, and nowhere else: these two alone make a
    /// `Gone`. Whether it has left is asked each second in which nothing new is shown, each time
    /// that memory is wanting for a document, and where the plane looks who has left.
    pub fn handed<G: Fn() -> bool>(
        &self,
        seat: &mut TakenSeat<K>,
        has_left: &G,
    ) -> Result<Handed, Gone>
        // `has_left` may be called at any time.
        requires { G.IsAlwaysCallable has_left.now }
        // `Ok`: what is handed is of the plane's store.
        ensures ours { IfOk result (λ h. h.store ≡ K.store) }
        // `Ok`: it is news to the subscriber, which has its revision from then on. `Err`: the
        // seat has what it had.
        ensures news { MatchResult result
            (λ h. IsNews (had_by seat.old) h × (had_by seat.new ≡ Has (front_revision h)))
            (λ _. had_by seat.new ≡ had_by seat.old) }
    {
        let shared = &self.shared;
        let mut hall = shared.hall.lock(&shared.rt);
        let mut looks = hall.looks();
        for _ in shared.rt.forever() {
            // Without memory for a document it is tried again soon.
            let quiet = match hall.hand(seat) {
                Ok(Some(handed)) => return Ok(handed),
                Ok(None) => Duration::from_secs(1),
                Err(_) => Duration::from_millis(1),
            };
            let staying = hall.staying()?;
            let (held, waited) = shared.news.wait_timeout(&shared.rt, hall, quiet);
            hall = held;
            let before = mem::replace(&mut looks, hall.looks());
            if waited.timed_out() || looks != before {
                drop(hall);
                if let Some(gone) = staying.where_left(has_left) {
                    return Err(gone);
                }
                hall = shared.hall.lock(&shared.rt);
            }
        }
        unreachable!()
    }
}
