//! Which condition keys statements ask for.

ghost use Rattle.std.specs.Prelude.{◌≡◌, ◌↔◌, IsTrue, Any};
ghost use Rattle.std.specs.Str.{str_eq_ignore_ascii_case};
ghost use Rattle.policy_eval.specs.Asking.{SomeAskFor};

use cond_ops::Condition;
use policy_doc::Statement;

fn is_about(condition: &Condition, key: &str) -> bool
    ensures { result ≡ str_eq_ignore_ascii_case condition.now.key key.now }
{
    condition.key.as_str().eq_ignore_ascii_case(key)
}

fn asks_for(statement: &Statement, key: &str) -> bool
    ensures { IsTrue result ↔ Any (λ condition. IsTrue (str_eq_ignore_ascii_case condition.key key.now)) statement.now.conditions }
{
    statement
        .conditions
        .as_slice()
        .iter()
        .any(|condition| is_about(condition, key))
}

/// Whether some condition of these statements is about a condition key, without ASCII case.
pub fn some_ask_for(statements: &[Statement], key: &str) -> bool
    ensures { IsTrue result ↔ SomeAskFor key.now statements.now }
{
    statements.iter().any(|statement| asks_for(statement, key))
}
