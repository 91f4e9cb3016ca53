//! Why a mesh text is refused.
use thiserror::Error;

/// Why a mesh text is refused.
#[derive(Clone, Copy, Debug, PartialEq, Eq, Error)]
pub enum StlFault {
    /// A token that is not the keyword, or one of the keywords, that may stand there.
    #[error("BadToken")]
    BadToken,
    /// A token in a number's place that is no numeral.
    #[error("BadNumber")]
    BadNumber,
    /// A coordinate beyond 1,000,000,000 nm in size.
    #[error("TooFar")]
    TooFar,
    /// The `facet` of facet 300,001.
    #[error("TooManyFacets")]
    TooManyFacets,
    /// The text ends where a token must follow.
    #[error("Cut")]
    Cut,
    /// The text is complete and has no facet.
    #[error("NoFacet")]
    NoFacet,
}
