//! What the server supports, as tokens.
ghost use Rattle.std.specs.Prelude.{◌≡◌, IfOk};
ghost use Rattle.numerics.specs.Support.{tokens};

use crate::copy_all;
use line_grammar::Octets;
use std::alloc::{AllocError, Global};

/// The tokens of [`ISupport`](crate::Numeric::ISupport), in order.
pub fn tokens(alloc: Global) -> Result<Vec<Octets>, AllocError>
    ensures { IfOk result (λ all. all.items ≡ tokens) }
{
    copy_all(
        alloc,
        &[
            b"AWAYLEN=200",
            b"CASEMAPPING=rfc1459",
            b"CHANLIMIT=#&:20",
            b"CHANMODES=b,k,l,imnst",
            b"CHANNELLEN=50",
            b"CHANTYPES=#&",
            b"KICKLEN=200",
            b"MAXLIST=b:60",
            b"MODES=4",
            b"NICKLEN=30",
            b"PREFIX=(ov)@+",
            b"TOPICLEN=300",
        ],
    )
}
