//! Why a message asks for nothing that can be done.
ghost use Rattle.std.specs.Prelude.{◌≡◌};
ghost use Rattle.command_params.specs.declared.fault.ReadFault.TheVariants.{Memory, NeedMoreParams};

use crate::CommandName;
use line_grammar::Octets;
use std::alloc::AllocError;

/// Why a message asks for nothing that can be done: the numeric that answers it, by what the message says
/// alone (RFC 2812, section 5.2).
#[derive(Drop)]
pub enum ReadFault {
    /// 421, with the command as given.
    UnknownCommand { name: Octets },
    /// 461.
    NeedMoreParams { command: CommandName },
    /// 431.
    NoNicknameGiven,
    /// 411.
    NoRecipient { command: CommandName },
    /// 412.
    NoTextToSend,
    /// 409.
    NoOrigin,
    /// 410, with the subcommand as given.
    InvalidCapSubcommand { subcommand: Octets },
    /// A growth was refused.
    Memory,
}

impl From<AllocError> for ReadFault {
    ghost from_gives = { λ _ e. e ≡ Memory };

    fn from(_error: AllocError) -> ReadFault {
        ReadFault::Memory
    }
}

/// 461: too few parameters for a command.
pub fn needs_more(command: CommandName) -> ReadFault
    ensures { result ≡ NeedMoreParams command }
{
    ReadFault::NeedMoreParams { command }
}
