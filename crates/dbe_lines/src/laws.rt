ghost use Rattle.std.specs.Prelude.{◌≡◌, ℕ, List, true};
ghost use Rattle.dbe_config.specs.Setting.{Setting};
ghost use Rattle.dbe_config.specs.Rules.{is_empty_list};
ghost use Rattle.dbe_lines.specs.Requests.{request_of};
ghost use Rattle.dbe_lines.specs.declared.request.Query.{Query};
ghost use Rattle.dbe_lines.specs.declared.request.Request.TheVariants as r;

/// A line is read as a query, or as one that is explained, only over a table without recipients.
pub fn queries_are_over_plain_tables()
    ensures query { (st : Setting) (line : List ℕ) (q : Query) → request_of st line ≡ r.Query q → is_empty_list st.recipients ≡ true }
    ensures explain { (st : Setting) (line : List ℕ) (q : Query) → request_of st line ≡ r.Explain q → is_empty_list st.recipients ≡ true }
{}
