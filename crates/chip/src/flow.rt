// A flow that exists: its parameters keep the rules of the chip.
ghost use Rattle.std.specs.Prelude.{◌≡◌};
ghost use Rattle.chip.specs.Flows.{Answers, flow_fault};

use crate::mesh_router::MeshRouter;
use crate::parameters::FlowParameters;
use crate::refusal::Refusal;

// The longest period, in ticks.
pub const MAX_PERIOD: u32 = 1_000_000;

// None of the rules refuses the parameters.
#[derive(Clone, Copy, PartialEq, Eq)]
pub struct Flow {
    parameters: FlowParameters,
    ghost sound: { flow_fault parameters ≡ 0 },
}

impl Flow {
    // The flow with these parameters. Refuses times that break 1 ≤ latency ≤ deadline ≤ period ≤ 1,000,000
    // and jitter < period, then endpoints off the mesh or equal, then label 0.
    pub fn new(parameters: FlowParameters) -> Result<Flow, Refusal>
        ensures { Answers result (flow_fault parameters) (λ f. f.parameters ≡ parameters) }
    {
        let p = parameters;
        if p.latency < 1
            || p.deadline < p.latency
            || p.period < p.deadline
            || p.period > MAX_PERIOD
            || p.jitter >= p.period
        {
            return Err(Refusal::Times);
        }
        if !p.source.is_on_mesh() || !p.destination.is_on_mesh() || p.source == p.destination {
            return Err(Refusal::Endpoints);
        }
        if p.label == 0 {
            return Err(Refusal::LabelZero);
        }
        Ok(Flow { parameters })
    }

    // What is said of the flow.
    pub fn parameters(&self) -> FlowParameters
        ensures { result ≡ self.now.parameters }
    {
        self.parameters
    }

    // The router that its packets come from.
    pub(crate) fn source(&self) -> MeshRouter
        ensures { result.router ≡ self.now.parameters.source }
    {
        MeshRouter {
            router: self.parameters.source,
        }
    }

    // The router that its packets go to.
    pub(crate) fn destination(&self) -> MeshRouter
        ensures { result.router ≡ self.now.parameters.destination }
    {
        MeshRouter {
            router: self.parameters.destination,
        }
    }
}
