// Who answers requests.
ghost use Rattle.std.specs.Prelude.{◌≡◌, IfOk};
ghost use Rattle.service.specs.declared.request.Request.{Request};

use service::Request;
use std::io;

// Answers requests one after another, and says each with its answer.
pub trait Desk {
    // What the answered requests leave, and what each does to it.
    ghost State: { Type 0 };

    ghost state: { Self → State };

    ghost after: { State → Request → State };

    // Answers the request of the line with this number, and says so.
    fn answer(&mut self, rt: &impl Print, number: usize, request: Request) -> io::Result<()>
        ensures { IfOk result (λ _. state self.new ≡ after (state self.old) request) };
}
