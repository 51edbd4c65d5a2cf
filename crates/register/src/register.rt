// A register: n participants, so many cells, one quorum rule, and who is down.
use crate::size::Size;
use std::marker::PhantomData;

mod accept;
mod checks;
mod deliver;
mod prepare;
mod read_out;
mod receive;
mod save;
mod set_up;

// The rows, the store and the post are the caller's and are handed to each call, one by one: of a struct of the three references each call would owe that it keeps them. A participant, a cell and an item are numbers of the call too: a pair would be packed only to be taken apart. Participant p's row of cell c is row p * cells + c, and its place in the store has the same number.
// That the rule is for size.n is a fact of set-up: a ghost field that says it would ask Q: QuorumRule of whoever names the type.
#[derive(Drop)]
pub struct Register<K, Q, P, S> {
    size: Size,
    rule: Q,
    down: u8,
    kind: PhantomData<K>,
    post: PhantomData<P>,
    store: PhantomData<S>,
}
