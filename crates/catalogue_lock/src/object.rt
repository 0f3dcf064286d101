//! What the lock needs of the object that it keeps.
ghost use Rattle.std.specs.Prelude.{◌≡◌, ◌++◌, List, length};

/// A value with a history, which its calls make longer and never shorten or change.
///
/// `history` is the list of its items, and `origin` is data that no call changes. `takes` is the condition on calls.
/// `replies` relates the origin, the history before, the call, the reply and the items added; `answers` relates the
/// origin, the history, the question and the answer.
pub trait Object {
    /// What its history has.
    type Item;

    /// What it is asked to do.
    type Call;

    /// What it answers to a call.
    type Reply;

    /// What it is asked without a change.
    type Question;

    /// What it answers to a question.
    type Answer;

    ghost Origin: { Type 0 };

    ghost history: { Self → List Self.Item };

    ghost origin: { Self → Origin };

    ghost takes: { Self.Call → Type 0 };

    ghost replies: { Origin → List Self.Item → Self.Call → Self.Reply → List Self.Item → Type 0 };

    ghost answers: { Origin → List Self.Item → Self.Question → Self.Answer → Type 0 };

    /// Makes one call, which adds its items or none.
    fn apply(&mut self, call: Self::Call) -> Self::Reply
        requires { takes call }
        ensures reply { (added : List Self.Item) × (history self.new ≡ history self.old ++ added) × replies (origin self.old) (history self.old) call result added }
        ensures origin { origin self.new ≡ origin self.old };

    /// Answers a question about the history as it is.
    fn look(&self, question: &Self::Question) -> Self::Answer
        ensures { answers (origin self.now) (history self.now) question.now result };

    /// The number of items of the history.
    fn count(&self) -> u64
        ensures { result ≡ length (history self.now) };
}
