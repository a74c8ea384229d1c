// The table of a pattern by one worklist whose steps are proved, so that no test is needed: the edges of the pattern's abstraction (`edges`, one of
// them: `edge`, and `index`), which of them lead into a state (`parts`, `incoming`), going back along them (`visits`), the states that wait (`queue`) and
// which of them is next (`order`), the goals first (`goals`), from them on until no entry can fall (`settle`), the table with arrays of the size that it
// needs (`build`).

pub(crate) mod build;
mod edge;
mod edges;
mod goals;
mod incoming;
mod index;
mod order;
mod parts;
mod queue;
mod settle;
mod states;
mod visits;
