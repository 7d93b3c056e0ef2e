// A table of records that is only read: a shared loan of its words, which can be copied and kept in other structs.
use std::marker::PhantomData;

mod methods;

#[derive_where(Clone, Copy)]
pub struct View<'a, R> {
    pub pairs: &'a [[u64; 2]],
    pub kind: PhantomData<R>,
}
