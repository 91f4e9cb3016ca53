//! A technology whose values may go to another thread.
use pl_tech::Technology;

/// A technology whose values may go to another thread, and be read by several.
pub trait Sent: Technology<
    Plate: Send,
    Edit: Send + Sync,
    Reply: Send,
    Output: Send + Sync,
    Job: Send,
    Bench: Send,
>
    + Send {}

impl<T> Sent for T
where
    T: Technology<
        Plate: Send,
        Edit: Send + Sync,
        Reply: Send,
        Output: Send + Sync,
        Job: Send,
        Bench: Send,
    >
        + Send,
{}
