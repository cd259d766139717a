//! The activations that events make.
ghost use Rattle.std.specs.Prelude.{◌≡◌, ◌++◌, [], IfOk, Some, slice_get, cond, is_some};
ghost use Rattle.pi_constraints.specs.Value.{IsAcyclic};
ghost use Rattle.pi_constraints.specs.State.{Agent, WatchTree, bindings};
ghost use Rattle.pi_constraints.specs.Store.{IsWatch, AreWatches};
ghost use Rattle.pi_settling.specs.Answers.{activations as woken_by, activations_from, first_answered, answer_to};
ghost use Rattle.pi_agent.specs.Woken.{event_value};

use pi_constraints::{Activation, Activations, Event, Events, StateStore, Watch};
use pi_terms::Term;
use std::alloc::{AllocError, Global};

/// The activations of events: for each event, in order, one of each agent that is alive and has a pattern that the event
/// answers, by the first such pattern, in the order in which the agents were made. A User's Guide to Picat, 'Action Rules'; the
/// order is own. It looks at all agents for each event.
pub fn activations<S: StateStore>(
    alloc: Global,
    s: &S,
    events: &Events,
) -> Result<Activations, AllocError>
    ensures { IfOk result (λ made. IsAcyclic (bindings (S.seen s.now).now.state) → made ≡ woken_by (S.seen s.now).now.state events.now) }
{
    let mut woken = Activations::new(alloc);
    let events = events.as_slice();
    for i in 0..events.len() {
        wake_agents(alloc, s, &events[i], &mut woken)?;
    }
    Ok(woken)
}

/// Puts the activations of one event behind others.
fn wake_agents<S: StateStore>(
    alloc: Global,
    s: &S,
    event: &Event,
    woken: &mut Activations,
) -> Result<(), AllocError>
    ensures { IfOk result (λ _. IsAcyclic (bindings (S.seen s.now).now.state) →
        woken.new ≡ woken.old ++ activations_from (bindings (S.seen s.now).now.state) event.now 0 (S.seen s.now).now.state.agents) }
{
    for agent in 0..s.agents() {
        wake_agent(alloc, s, agent, event, woken)?;
    }
    Ok(())
}

/// Puts the activation of an agent behind others, where it is alive and has a pattern that the event answers.
fn wake_agent<S: StateStore>(
    alloc: Global,
    s: &S,
    agent: u64,
    event: &Event,
    woken: &mut Activations,
) -> Result<(), AllocError>
    ensures { IfOk result (λ _. (a : Agent) → IsAcyclic (bindings (S.seen s.now).now.state) →
        slice_get (S.seen s.now).now.state.agents agent ≡ Some a →
        woken.new ≡ woken.old ++ cond a.alive (first_answered (bindings (S.seen s.now).now.state) event.now agent 0 a.watches) []) }
{
    match s.agent(agent) {
        None => Ok(()),
        Some(_) => {
            wake(alloc, s, agent, event, woken)?;
            Ok(())
        }
    }
}

/// The same of an agent that is alive.
fn wake<S: StateStore>(
    alloc: Global,
    s: &S,
    agent: u64,
    event: &Event,
    woken: &mut Activations,
) -> Result<(), AllocError>
    ensures { IfOk result (λ _. (a : Agent) → IsAcyclic (bindings (S.seen s.now).now.state) →
        slice_get (S.seen s.now).now.state.agents agent ≡ Some a →
        woken.new ≡ woken.old ++ first_answered (bindings (S.seen s.now).now.state) event.now agent 0 a.watches) }
{
    let watches = s.watches(alloc, agent)?;
    let watches = watches.as_slice();
    for i in 0..watches.len() {
        let watch = watches[i];
        if answers(s, event, watch) {
            let value = value_of(alloc, event)?;
            woken.push(Activation {
                agent,
                watch: i as u64,
                value,
            })?;
            return Ok(());
        }
    }
    Ok(())
}

/// Whether an event answers a pattern.
fn answers<S: StateStore>(s: &S, event: &Event, watch: Watch) -> bool
    ensures { (w : WatchTree) → IsAcyclic (bindings (S.seen s.now).now.state) → IsWatch (S.seen s.now) watch w →
        result ≡ is_some (answer_to (bindings (S.seen s.now).now.state) event.now w) }
{
    match event {
        Event::Ins(n) => match watch {
            Watch::Ins(r) => s.leads_to(r, *n),
            _ => false,
        },
        Event::Bound(n) => match watch {
            Watch::Bound(r) => s.leads_to(r, *n),
            _ => false,
        },
        Event::Excluded(n, _, inner) => match watch {
            Watch::Dom(r, _) => *inner && s.leads_to(r, *n),
            Watch::DomAny(r, _) => s.leads_to(r, *n),
            _ => false,
        },
        Event::Posted(n, _) => match watch {
            Watch::Posted(r, _) => s.leads_to(r, *n),
            _ => false,
        },
    }
}

/// The value that an event gives, where it gives one.
fn value_of(alloc: Global, event: &Event) -> Result<Option<Term>, AllocError>
    ensures { IfOk result (λ made. made ≡ event_value event.now) }
{
    match event {
        Event::Ins(_) => Ok(None),
        Event::Bound(_) => Ok(None),
        Event::Excluded(_, n, _) => Ok(Some(Term::int(alloc, i128::from(*n))?)),
        Event::Posted(_, value) => Ok(Some(value.copy(alloc)?)),
    }
}
