//! Ids that own their suspensions. While one is taken apart, they are linked the other way round.

ghost use Rattle.std.specs.Prelude.{◌≡◌, ◌∷◌, ℕ, IfOk, Some, None, is_some, option_map, true};
ghost use Rattle.std.specs.Arc.{arc_value};
ghost use Rattle.kan_model.specs.Programs.Goals.{Goal};
ghost use Rattle.kan_model.specs.Programs.Environments.{terms_of};
ghost use Rattle.kan_model.specs.Streams.Stream.{append};
ghost use Rattle.stream_core.specs.TableKinds.LinkedThunks.{thunk_of, suspension_of, linked_tree};
ghost use Rattle.stream_core.specs.TableKinds.LinkedThunks.{linked_around, linked_layers};
ghost use Rattle.stream_core.specs.TableKinds.LinkedThunks.{linked_stream, IsExchanged};
ghost use Rattle.stream_core.specs.TableKinds.LinkedThunks.{HasExchanged, IsInsideBind};
ghost use Rattle.stream_core.specs.TableKinds.LinkedThunks.{HasEnteredSwap, IsEntered};
ghost use Rattle.stream_core.specs.TableKinds.LinkedThunks.{IsWholeOrSame, IsStep, IsLevel};
ghost use Rattle.stream_core.specs.Surroundings as outer;
ghost use Rattle.stream_core.specs.Suspensions.{stream_of_parts};

use crate::appending::joined;
use crate::copies::stores_again;
use crate::nodes::{Closed, Innermost, Parted};
use crate::streams::{Stores, Stream, Thunk};
use kan_model::{Env, Store};
use kan_terms::Memory;
use std::alloc::Global;
use std::mem;
use std::sync::Arc;

// A suspension with its weight.
#[derive(Drop)]
struct Weighed<T> {
    thunk: T,
    // How many suspensions it is made of, as far as the greatest number.
    weight: u64,
}

/// A suspension, which may be shared with others. What is inside one that is taken apart is an id
/// without a suspension, or the one around it.
#[cycle(linked)]
pub struct LinkedId<St: Drop> {
    node: Option<Arc<Weighed<Thunk<LinkedId<St>, St>>>>,
}

// A loop down the heavier parts, so that a suspension however deep is dropped in little stack: a
// recursion is into a part of at most half the suspensions.
impl<St: Drop> Drop for LinkedId<St> {
    fn drop(mut self) {
        loop {
            let LinkedId { node } = self;
            let Some(node) = node else {
                return;
            };
            let Some(Weighed { thunk, weight: _ }) = Arc::into_inner(node) else {
                return;
            };
            match thunk {
                Thunk::Call {
                    rel: _,
                    args: _args,
                    store: _store,
                } => return,
                Thunk::Pause {
                    goal: _,
                    env: _env,
                    store: _store,
                } => return,
                Thunk::Bind {
                    goal: _,
                    env: _env,
                    inner,
                } => self = inner,
                Thunk::Swap {
                    heads: _heads,
                    tail,
                    inner,
                } => match tail {
                    None => self = inner,
                    Some(tail) => {
                        if weight(&tail) > weight(&inner) {
                            self = tail;
                        } else {
                            self = inner;
                        }
                    }
                },
            }
        }
    }
}

// How many suspensions an id's is made of, as far as the greatest number.
fn weight<St: Drop>(id: &LinkedId<St>) -> u64 {
    match &id.node {
        Some(node) => node.weight,
        None => 0,
    }
}

// The same of a suspension.
fn weight_of<St: Drop>(thunk: &Thunk<LinkedId<St>, St>) -> u64 {
    match thunk {
        Thunk::Call {
            rel: _,
            args: _,
            store: _,
        } => 1,
        Thunk::Pause {
            goal: _,
            env: _,
            store: _,
        } => 1,
        Thunk::Bind {
            goal: _,
            env: _,
            inner,
        } => weight(inner).saturating_add(1),
        Thunk::Swap {
            heads: _,
            tail: None,
            inner,
        } => weight(inner).saturating_add(1),
        Thunk::Swap {
            heads: _,
            tail: Some(tail),
            inner,
        } => weight(inner).saturating_add(weight(tail)).saturating_add(1),
    }
}

// What came of a try to put an id in the place of the one inside a node.
#[derive(Drop)]
enum Exchanged<St: Drop> {
    // This one was inside.
    Inner(LinkedId<St>),
    // None is inside. The id comes back.
    Last(LinkedId<St>),
    // Others have the node. The id comes back.
    Shared(LinkedId<St>),
}

// Puts an id in the place of the one inside a suspension, and hands it back where none is inside.
fn exchange_inner<St: Drop>(
    thunk: &mut Thunk<LinkedId<St>, St>,
    other: LinkedId<St>,
) -> Result<LinkedId<St>, LinkedId<St>>
    ensures { IsExchanged thunk.old other thunk.new result }
{
    match thunk {
        Thunk::Bind {
            goal: _,
            env: _,
            inner,
        } => Ok(mem::replace(inner, other)),
        Thunk::Swap {
            heads: _,
            tail: _,
            inner,
        } => Ok(mem::replace(inner, other)),
        _ => Err(other),
    }
}

// What came of a try to let a stream into the suspension that stood around it.
#[derive(Drop)]
enum Entered<St: Drop> {
    // The suspension is how the new stream goes on, whose stores these are. This one was around.
    Inside {
        around: LinkedId<St>,
        heads: Stores<St>,
    },
    // The stream comes back, and nothing was changed.
    Outside(Stream<LinkedId<St>, St>),
}

// Lets a stream without stores into the place of the one inside a goal that waits.
fn enter_bind<St: Drop>(inner: &mut LinkedId<St>, inside: Stream<LinkedId<St>, St>) -> Entered<St>
    ensures { IsInsideBind inner.old inside inner.new result }
{
    if !inside.heads.is_empty() {
        return Entered::Outside(inside);
    }
    let Stream { heads, tail } = inside;
    match tail {
        Some(next) => Entered::Inside {
            around: mem::replace(inner, next),
            heads,
        },
        None => Entered::Outside(Stream { heads, tail: None }),
    }
}

// Lets a stream wait in the place of another one, which goes on.
fn enter_swap<St: Drop>(
    heads: &mut Stores<St>,
    tail: &mut Option<LinkedId<St>>,
    inner: &mut LinkedId<St>,
    inside: Stream<LinkedId<St>, St>,
) -> Entered<St>
    ensures { HasEnteredSwap heads.old tail.old inner.old inside heads.new tail.new inner.new
        result }
{
    match tail.take() {
        Some(first) => {
            let Stream {
                heads: waiting,
                tail: last,
            } = inside;
            *tail = last;
            Entered::Inside {
                around: mem::replace(inner, first),
                heads: mem::replace(heads, waiting),
            }
        }
        None => Entered::Outside(inside),
    }
}

// Lets a stream into the suspension that stood around it, where one is left to be suspended and no
// goal is to be run.
fn enter<St: Store>(
    thunk: &mut Thunk<LinkedId<St>, St>,
    inside: Stream<LinkedId<St>, St>,
) -> Entered<St>
    ensures { (goal : ℕ → Goal) → IsEntered St.meaning goal thunk.old inside thunk.new result }
{
    match thunk {
        Thunk::Bind {
            goal: _,
            env: _,
            inner,
        } => enter_bind(inner, inside),
        Thunk::Swap { heads, tail, inner } => enter_swap(heads, tail, inner, inside),
        _ => Entered::Outside(inside),
    }
}

// The same, with the weight.
fn enter_own<St: Store>(
    own: &mut Weighed<Thunk<LinkedId<St>, St>>,
    inside: Stream<LinkedId<St>, St>,
) -> Entered<St>
    ensures { (goal : ℕ → Goal) → IsEntered St.meaning goal own.old.thunk inside own.new.thunk
        result }
{
    let entered = enter(&mut own.thunk, inside);
    own.weight = weight_of(&own.thunk);
    entered
}

// One step down.
#[derive(Drop)]
pub(crate) enum Step<St: Drop> {
    // A suspension more is around, and what was inside it is left.
    Down {
        around: LinkedId<St>,
        inner: LinkedId<St>,
    },
    // It ends here.
    End(Parted<LinkedId<St>, LinkedId<St>, St>),
}

// One step up.
#[derive(Drop)]
pub(crate) enum Level<St: Drop> {
    // The stream of a suspension, and those around it.
    Up {
        around: LinkedId<St>,
        stream: Stream<LinkedId<St>, St>,
    },
    // It ends here.
    End(Closed<LinkedId<St>, LinkedId<St>, St>),
}

// What a goal that waits makes of a stream: where that has stores, the goal is to be run.
fn bound_level<St: Store>(
    goal: u32,
    env: Env,
    around: LinkedId<St>,
    inside: Stream<LinkedId<St>, St>,
) -> Level<St>
    ensures { (at : ℕ → Goal) → IsLevel St.meaning at
        (outer.Around.bind (at goal) (terms_of env) ∷ linked_around St.meaning at around) inside
        result }
{
    if inside.heads.is_empty() & inside.tail.is_none() {
        return Level::Up {
            around,
            stream: inside,
        };
    }
    Level::End(Closed::Run {
        goal,
        env,
        stream: inside,
        around,
    })
}

// The stream of stores and a tail with another one behind it.
fn appended<St: Store>(
    alloc: Global,
    heads: Stores<St>,
    tail: Option<LinkedId<St>>,
    inside: Stream<LinkedId<St>, St>,
) -> Result<Stream<LinkedId<St>, St>, Memory>
    ensures { IfOk result (λ made. (goal : ℕ → Goal) → linked_stream St.meaning goal made ≡
        append (stream_of_parts (linked_tree St.meaning goal) St.meaning heads tail)
        (linked_stream St.meaning goal inside)) }
{
    let Stream {
        heads: waiting,
        tail: last,
    } = inside;
    match tail {
        None => {
            let heads = joined(alloc, heads, waiting)?;
            Ok(Stream { heads, tail: last })
        }
        Some(inner) => {
            let next = LinkedId::of(
                alloc,
                Thunk::Swap {
                    heads: waiting,
                    tail: last,
                    inner,
                },
            )?;
            Ok(Stream {
                heads,
                tail: Some(next),
            })
        }
    }
}

// One step up, where a suspension stands around.
fn level_of<St: Store>(
    alloc: Global,
    thunk: Thunk<LinkedId<St>, St>,
    inside: Stream<LinkedId<St>, St>,
) -> Result<Level<St>, Memory>
    ensures { IfOk result (λ level. (goal : ℕ → Goal) → IsLevel St.meaning goal
        (linked_layers St.meaning goal thunk) inside level) }
{
    match thunk {
        Thunk::Bind { goal, env, inner } => Ok(bound_level(goal, env, inner, inside)),
        Thunk::Swap { heads, tail, inner } => {
            let stream = appended(alloc, heads, tail, inside)?;
            Ok(Level::Up {
                around: inner,
                stream,
            })
        }
        _ => Ok(Level::End(Closed::Made(inside))),
    }
}

// How a stream goes on, once more.
fn tail_again<St: Store>(tail: &Option<LinkedId<St>>) -> Result<Option<LinkedId<St>>, Memory>
    ensures { IfOk result (λ copy. (goal : ℕ → Goal) →
        option_map (linked_tree St.meaning goal) copy ≡
        option_map (linked_tree St.meaning goal) tail.now) }
{
    match tail {
        None => Ok(None),
        Some(id) => {
            let copy = id.again()?;
            Ok(Some(copy))
        }
    }
}

// A suspension once more.
fn thunk_again<St: Store>(
    alloc: Global,
    thunk: &Thunk<LinkedId<St>, St>,
) -> Result<Thunk<LinkedId<St>, St>, Memory>
    ensures { IfOk result (λ copy. (goal : ℕ → Goal) → linked_layers St.meaning goal copy ≡
        linked_layers St.meaning goal thunk.now) }
{
    match thunk {
        Thunk::Call { rel, args, store } => {
            let args = args.again(alloc)?;
            let store = store.again(alloc)?;
            Ok(Thunk::Call {
                rel: *rel,
                args,
                store,
            })
        }
        Thunk::Pause { goal, env, store } => {
            let env = env.again(alloc)?;
            let store = store.again(alloc)?;
            Ok(Thunk::Pause {
                goal: *goal,
                env,
                store,
            })
        }
        Thunk::Swap { heads, tail, inner } => {
            let heads = stores_again(alloc, heads.items())?;
            let tail = tail_again(tail)?;
            let inner = inner.again()?;
            Ok(Thunk::Swap { heads, tail, inner })
        }
        Thunk::Bind { goal, env, inner } => {
            let env = env.again(alloc)?;
            let inner = inner.again()?;
            Ok(Thunk::Bind {
                goal: *goal,
                env,
                inner,
            })
        }
    }
}

// The suspension of a node, which is copied where others have it.
fn taken<St: Store>(
    alloc: Global,
    node: Arc<Weighed<Thunk<LinkedId<St>, St>>>,
) -> Result<Thunk<LinkedId<St>, St>, Memory>
    ensures { IfOk result (λ thunk. (goal : ℕ → Goal) → linked_layers St.meaning goal thunk ≡
        linked_layers St.meaning goal (thunk_of (arc_value node))) }
{
    match Arc::try_unwrap(node) {
        Ok(Weighed { thunk, weight: _ }) => Ok(thunk),
        Err(node) => thunk_again(alloc, &node.thunk),
    }
}

// Lets a stream into a node that nobody else has.
fn enter_node<St: Store>(
    node: &mut Arc<Weighed<Thunk<LinkedId<St>, St>>>,
    inside: Stream<LinkedId<St>, St>,
) -> Entered<St>
    ensures { (goal : ℕ → Goal) → IsEntered St.meaning goal (thunk_of (arc_value node.old)) inside
        (thunk_of (arc_value node.new)) result }
{
    match Arc::get_mut(node) {
        Some(own) => enter_own(own, inside),
        None => Entered::Outside(inside),
    }
}

// Puts an id in the place of the one inside a node that nobody else has.
fn exchange_in_node<St: Store>(
    node: &mut Arc<Weighed<Thunk<LinkedId<St>, St>>>,
    other: LinkedId<St>,
) -> Exchanged<St>
    ensures { HasExchanged (thunk_of (arc_value node.old)) other (thunk_of (arc_value node.new))
        result }
{
    match Arc::get_mut(node) {
        Some(own) => match exchange_inner(&mut own.thunk, other) {
            Ok(inner) => Exchanged::Inner(inner),
            Err(same) => Exchanged::Last(same),
        },
        None => Exchanged::Shared(other),
    }
}

impl<St: Store> LinkedId<St> {
    /// The id of a suspension.
    pub(crate) fn of(alloc: Global, thunk: Thunk<LinkedId<St>, St>) -> Result<LinkedId<St>, Memory>
        ensures { IfOk result (λ id. suspension_of id ≡ Some thunk) }
    {
        let weight = weight_of(&thunk);
        let node = Arc::new(alloc, Weighed { thunk, weight })?;
        Ok(LinkedId { node: Some(node) })
    }

    /// The suspension, lent.
    pub(crate) fn lent(&self) -> &Thunk<LinkedId<St>, St>
        requires { is_some (suspension_of self.now) ≡ true }
        ensures { suspension_of self.now ≡ Some result.now }
    {
        match &self.node {
            Some(node) => &node.thunk,
            None => unreachable!(),
        }
    }

    /// Another id of the same.
    pub(crate) fn again(&self) -> Result<LinkedId<St>, Memory>
        ensures { IfOk result (λ copy. suspension_of copy ≡ suspension_of self.now) }
    {
        match &self.node {
            Some(node) => {
                let node = Arc::try_clone(node)?;
                Ok(LinkedId { node: Some(node) })
            }
            None => Ok(LinkedId { node: None }),
        }
    }

    /// What none stands around.
    pub(crate) fn none() -> LinkedId<St>
        ensures { suspension_of result ≡ None }
    {
        LinkedId { node: None }
    }

    // The innermost suspension, where nobody else has it, and else the id itself.
    fn innermost(self) -> Innermost<LinkedId<St>, St>
        ensures { IsWholeOrSame self result }
    {
        let LinkedId { node } = self;
        let Some(node) = node else {
            return Innermost::Shared(LinkedId { node: None });
        };
        match Arc::try_unwrap(node) {
            Ok(Weighed { thunk, weight: _ }) => Innermost::Last(thunk),
            Err(node) => Innermost::Shared(LinkedId { node: Some(node) }),
        }
    }

    /// One step down, where others stand around.
    pub(crate) fn step(self, around: LinkedId<St>) -> Step<St>
        ensures { (goal : ℕ → Goal) → IsStep St.meaning goal self around result }
    {
        let LinkedId { node } = self;
        let Some(mut node) = node else {
            return Step::End(Parted {
                around,
                innermost: Innermost::Shared(LinkedId { node: None }),
            });
        };
        match exchange_in_node(&mut node, around) {
            Exchanged::Inner(inner) => Step::Down {
                around: LinkedId { node: Some(node) },
                inner,
            },
            Exchanged::Last(around) => Step::End(Parted {
                around,
                innermost: LinkedId { node: Some(node) }.innermost(),
            }),
            Exchanged::Shared(around) => Step::End(Parted {
                around,
                innermost: Innermost::Shared(LinkedId { node: Some(node) }),
            }),
        }
    }

    /// One step up, where these stand around a stream.
    pub(crate) fn level(
        self,
        alloc: Global,
        inside: Stream<LinkedId<St>, St>,
    ) -> Result<Level<St>, Memory>
        ensures { IfOk result (λ level. (goal : ℕ → Goal) → IsLevel St.meaning goal
            (linked_around St.meaning goal self) inside level) }
    {
        let LinkedId { node } = self;
        let Some(mut node) = node else {
            return Ok(Level::End(Closed::Made(inside)));
        };
        match enter_node(&mut node, inside) {
            Entered::Inside { around, heads } => Ok(Level::Up {
                around,
                stream: Stream {
                    heads,
                    tail: Some(LinkedId { node: Some(node) }),
                },
            }),
            Entered::Outside(inside) => {
                let thunk = taken(alloc, node)?;
                level_of(alloc, thunk, inside)
            }
        }
    }
}
