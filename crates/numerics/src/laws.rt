//! What holds of lines that tell names, whatever the names. Each function's clauses are laws, and its body does
//! nothing.
ghost use Rattle.std.specs.Prelude.{◌≡◌, ℕ, ◌+◌, ◌-◌, ◌<◌, ◌≤◌, Bool, List, [], length};
ghost use Rattle.numerics.specs.declared.numeric.Numeric.TheVariants.{NamReply, WhoisChannels};
ghost use Rattle.numerics.specs.Numerics.{numeric, middle_of, names_text};
ghost use Rattle.numerics.specs.Outgoing.{room, out_text};

/// The room that a [`NamReply`](crate::Numeric::NamReply) has for names, and that no name is cut off from a line
/// whose names are within it.
pub fn room_for_names()
    ensures room { (server to channel : List ℕ) (secret : Bool) →
        room (numeric server to (NamReply secret channel []))
        ≡ 510 - (length server + length to + length (middle_of channel) + 11) }
    ensures whole { (server to channel : List ℕ) (secret : Bool) (names : List (List ℕ)) →
        let free = room (numeric server to (NamReply secret channel [])) in
        0 < free → length (names_text names) ≤ free
        → length (out_text (numeric server to (NamReply secret channel names))) ≤ 510 }
{}

/// The same of a [`WhoisChannels`](crate::Numeric::WhoisChannels) and the names of its channels.
pub fn room_for_channels()
    ensures room { (server to nick : List ℕ) →
        room (numeric server to (WhoisChannels nick []))
        ≡ 510 - (length server + length to + length (middle_of nick) + 9) }
    ensures whole { (server to nick : List ℕ) (channels : List (List ℕ)) →
        let free = room (numeric server to (WhoisChannels nick [])) in
        0 < free → length (names_text channels) ≤ free
        → length (out_text (numeric server to (WhoisChannels nick channels))) ≤ 510 }
{}
