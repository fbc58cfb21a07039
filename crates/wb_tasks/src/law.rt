//! What holds of every run of a request.

ghost use Rattle.std.specs.Prelude.{◌≡◌, ◌+◌, ◌*◌, ◌≤◌, ◌<◌, ℕ, List, length, max};
ghost use Rattle.wb_types.specs.declared.refusal.Refusal.{Refusal as RefusalTerm};
ghost use Rattle.wb_types.specs.declared.extent.Extent.{Extent};
ghost use Rattle.wb_types.specs.declared.number.OBlock.{OBlock};
ghost use Rattle.wb_types.specs.Extents.{IsCutInto};
ghost use Rattle.wb_tasks.specs.Tables.{BlockJob, TaskJob, OnBlock, Flushing, Suspending, Opening, range_of};
ghost use Rattle.wb_tasks.specs.Plan.{Plan, table, want, after, Fits};
ghost use Rattle.wb_tasks.specs.Ready.{MayTake, MayMake, Suits, IsOwnStep, AreBelow, block_of};
ghost use Rattle.wb_words.specs.declared.card.Card.{Card as CardTerm};
ghost use Rattle.wb_words.specs.declared.card.Hold.TheVariants.{Nothing};
ghost use Rattle.wb_tasks.specs.declared.step.Want.TheVariants.{End};
ghost use Rattle.wb_tasks.specs.declared.step.Answer.{Answer as AnswerTerm};
ghost use Rattle.wb_tasks.specs.Run.{IsRunOf};
ghost use Rattle.wb_tasks.specs.Length.{longest};
ghost use Rattle.wb_tasks.specs.Causes.{GaveCause};
ghost use Rattle.wb_tasks.specs.declared.step.Answer.TheVariants.{Refused as Refuses};
ghost use Rattle.wb_tasks.specs.declared.step.Want.{Want as WantTerm};
ghost use Rattle.wb_tasks.specs.declared.step.Got.{Got as GotTerm};

/// The law that a job on a block, of n sectors, answers within `2 n + 11` steps, by any stage and however its
/// sectors are cut into extents, a flush by its image's nodes and the orders that it serves, a suspend by those nodes and the mapped
/// blocks, an opening by the metadata sectors: `drive` takes no more steps than `longest`.
pub fn step_bound()
    ensures extents { (job : BlockJob) → longest (table (OnBlock job)) ≤ 2 * length (range_of job).extents + 11 }
    ensures flush { (serves : List OBlock) (most : ℕ) → longest (table (Flushing serves most)) ≤ max (most + 11) (length serves + 4) }
    ensures suspend { (blocks : List OBlock) (most : ℕ) → longest (table (Suspending blocks most)) ≤ length blocks + most + 10 }
    ensures opening { (left : ℕ) → longest (table (Opening left)) ≤ left + 8 }
    ensures sectors { (job : BlockJob) (whole : Extent) → IsCutInto whole (range_of job).extents → longest (table (OnBlock job)) ≤ 2 * whole.count + 11 }
{}

/// The law that a task refuses for a cause alone: `Io` only where a step on that device failed, `Busy` only where the
/// lock word that it looked at ruled the exchange out, it lost its exchange, or a suspend found another commit running, `Failed`
/// only where the fail word was set or commits were broken, `Defer` only where a write saw its block mapped in passthrough, `Memory` only where the desk or a reading had none, `Worn` only where a write found
/// its block's number used up; `NotFormatted`, `Damaged`, `Mismatch`, `NotClean` only where the metadata were read so,
/// `GenerationEnd` only where the desk or that reading said it, and nothing else ever.
#[tactic(auto, using(crate::proofs::Causing::refuses_for_cause))]
pub fn refusal_causes()
    ensures { (job : TaskJob) (steps : List (WantTerm × GotTerm)) (refusal : RefusalTerm) → IsRunOf (table job) steps (Refuses refusal) → GaveCause job refusal steps }
{}

/// The law that an actor of a task is ready for each of its steps: it has what it releases, seals, finishes, maps or unmaps, it takes a block or gives up an order where it has no block, and a write
/// finishes where its number has a next one. Each step on a device or the desk is one of its job's own: no device but
/// those of its route, and nothing of the desk for a read or write.
/// Who begins with nothing has what the table needs, each step keeps it so whatever came of it, and after the answer
/// nothing is held.
#[tactic(auto, using(crate::proofs::Readiness::ends_holding_nothing))]
pub fn steps_are_ready()
    ensures begins { (blocks : ℕ) (job : BlockJob) (card : CardTerm) → (block_of job).0 < blocks → card.hold ≡ Nothing → Suits blocks (table (OnBlock job)) card }
    ensures begins_flush { (blocks : ℕ) (serves : List OBlock) (most : ℕ) (card : CardTerm) → card.hold ≡ Nothing → Suits blocks (table (Flushing serves most)) card }
    ensures begins_suspend { (count : ℕ) (blocks : List OBlock) (most : ℕ) (card : CardTerm) → AreBelow count blocks → card.hold ≡ Nothing → Suits count (table (Suspending blocks most)) card }
    ensures begins_opening { (blocks left : ℕ) (card : CardTerm) → card.hold ≡ Nothing → Suits blocks (table (Opening left)) card }
    ensures ready { (blocks : ℕ) (s : Plan) (card : CardTerm) → Suits blocks s card → MayTake blocks card (want s) }
    ensures own { (blocks : ℕ) (s : Plan) (card : CardTerm) → Suits blocks s card → IsOwnStep s.job (want s) }
    ensures same { (s : Plan) (got : GotTerm) → (after s got).job ≡ s.job }
    ensures keeps { (blocks : ℕ) (s : Plan) (card card' : CardTerm) (got : GotTerm) → Suits blocks s card → Fits (want s) got → MayMake (want s) got card card' → Suits blocks (after s got) card' }
    ensures ends { (blocks : ℕ) (s : Plan) (card : CardTerm) (answer : AnswerTerm) → Suits blocks s card → want s ≡ End answer → card.hold ≡ Nothing }
{}
