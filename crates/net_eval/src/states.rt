// What wires keep between rows.

ghost use Rattle.std.specs.Prelude.{◌≡◌, ◌<◌, IfOk, length};
ghost use Rattle.net_model.specs.Validity.{IsValid};
ghost use Rattle.net_eval.specs.States.{AreKept, CanStart, TakesInput, block_start, filter_after, filter_value, held_in, holding, put_back, restarted, start_of, starts_of};

use crate::resolving::item_at;
use efx_filters::{Average, Dt1, Gain, Pt1};
use net_model::{Block, Item, Network, WireNo};
use std::alloc::{AllocError, Global};

/// What a wire keeps between rows.
#[derive(Drop)]
pub enum State {
    /// The wire's value hangs on its own row alone.
    Nothing,
    /// What a delay answers in the next row.
    Held(i64),
    /// A proportional block, which keeps its gain alone.
    Gaining(Gain),
    /// A lag of first order.
    Lagging(Pt1),
    /// A differentiating lag of first order.
    Differencing(Dt1),
    /// A moving average.
    Averaging(Average),
}

/// What the wires keep before the first row.
pub(crate) fn start(alloc: Global, net: &Network) -> Result<Vec<State>, AllocError>
    ensures { IfOk result (λ states. states.items ≡ starts_of net.now (length net.now.wires)) }
{
    let mut states = Vec::new(alloc);
    let wires = net.wires();
    for i in 0..wires.len() {
        let state = start_of(alloc, net, WireNo(i as u32))?;
        states.push(state)?;
    }
    Ok(states)
}

/// What a wire keeps before the first row.
fn start_of(alloc: Global, net: &Network, wire: WireNo) -> Result<State, AllocError>
    requires valid { IsValid net.now }
    requires there { wire.0 < length net.now.wires }
    ensures { IfOk result (λ state. state ≡ start_of net.now wire.0) }
{
    match item_at(net, wire) {
        Item::Input { .. } | Item::Const { .. } => Ok(State::Nothing),
        Item::Delay { init, .. } => Ok(State::Held(init)),
        Item::Block(block) => block_start(alloc, block),
    }
}

/// What a block starts with.
fn block_start(alloc: Global, block: Block) -> Result<State, AllocError>
    requires { CanStart block }
    ensures { IfOk result (λ state. state ≡ block_start block) }
{
    match block {
        Block::Gain { xty, ty, k, .. } => Ok(State::Gaining(Gain::new(xty, ty, k))),
        Block::Average { xty, ty, n, .. } => {
            Ok(State::Averaging(Average::new(alloc, xty, ty, n)?))
        }
        Block::Pt1 {
            xty,
            ty,
            teq,
            k,
            ..
        } => Ok(State::Lagging(Pt1::new(xty, ty, teq, k))),
        Block::Dt1 {
            second,
            xty,
            ty,
            teq,
            k,
            ..
        } => Ok(State::Differencing(Dt1::new(second, xty, ty, teq, k))),
        _ => Ok(State::Nothing),
    }
}

/// Goes back to before the first row, which takes no memory.
pub(crate) fn restart(net: &Network, states: &mut [State])
    requires { AreKept net.now states.old }
    ensures { states.new ≡ starts_of net.now (length net.now.wires) }
{
    let wires = net.wires();
    for i in 0..wires.len() {
        put_back(item_at(net, WireNo(i as u32)), &mut states[i]);
    }
}

/// Puts back what is kept for an item to before the first row.
fn put_back(item: Item, state: &mut State)
    ensures { state.new ≡ put_back item state.old }
{
    match item {
        Item::Delay { init, .. } => *state = State::Held(init),
        Item::Input { .. } | Item::Const { .. } | Item::Block(_) => restart_filter(state),
    }
}

/// Puts a filter back to before its first row; what is none stays.
fn restart_filter(state: &mut State)
    ensures { state.new ≡ restarted state.old }
{
    match state {
        State::Nothing | State::Held(_) => {}
        State::Gaining(gain) => gain.reset(),
        State::Lagging(lag) => lag.reset(),
        State::Differencing(lag) => lag.reset(),
        State::Averaging(average) => average.reset(),
    }
}

/// What a delay answers; 0 where nothing is held.
pub(crate) fn held(state: &State) -> i64
    ensures { result ≡ held_in state.now }
{
    match state {
        State::Held(value) => *value,
        State::Nothing
        | State::Gaining(_)
        | State::Lagging(_)
        | State::Differencing(_)
        | State::Averaging(_) => 0,
    }
}

/// Hands a delay the value that it answers in the next row; what holds nothing stays.
pub(crate) fn hold(state: &mut State, value: i64)
    ensures { state.new ≡ holding state.old value }
{
    if let State::Held(held) = state {
        *held = value;
    }
}

/// What a filter answers in a row with this input, a raw count of the type that it takes; 0 where
/// there is no filter.
pub(crate) fn filter(state: &mut State, input: i64) -> i64
    requires { TakesInput state.old input }
    ensures value { result ≡ filter_value state.old input }
    ensures after { state.new ≡ filter_after state.old input }
{
    match state {
        State::Nothing | State::Held(_) => 0,
        State::Gaining(gain) => gain.step(input),
        State::Lagging(lag) => lag.step(input),
        State::Differencing(lag) => lag.step(input),
        State::Averaging(average) => average.step(input),
    }
}
