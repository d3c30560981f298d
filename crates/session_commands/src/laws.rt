//! What holds of the lines that welcome, whoever is welcomed. Each function's clauses are laws, and its body does
//! nothing.
ghost use Rattle.std.specs.Prelude.{◌≤◌, ℕ, List, length};
ghost use Rattle.std.specs.List.{All};
ghost use Rattle.numerics.specs.Numerics.{numeric};
ghost use Rattle.numerics.specs.Outgoing.{out_text};
ghost use Rattle.session_commands.specs.Welcome.{support_numerics};

/// That no line that tells what the server supports is cut: a server's name has 63 octets at most, a nickname 30,
/// and a line 510.
pub fn support_is_whole()
    ensures { (server nick : List ℕ) → length server ≤ 63 → length nick ≤ 30 →
        All (λ n. length (out_text (numeric server nick n)) ≤ 510) support_numerics }
{}
