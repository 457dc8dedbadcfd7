//! The names that the steps of a script introduce.
ghost use Rattle.std.specs.Prelude.{◌≡◌, false, OnOk, IfOk, IfErr, map, replicate};
ghost use Rattle.std.specs.List.{list_any};
ghost use Rattle.script_chain_format.specs.Results.{Gives, or_fault};
ghost use Rattle.script_format.specs.Checks as checks;
ghost use Rattle.script_format.specs.Names.{lists_of, name_rows};

use indexmap::IndexSet;
use script_chain_format::ScriptFault;
use std::alloc::Global;

/// Returns the place of a name among those of its kind that were introduced for the flow.
fn place_in(names: &IndexSet<&str>, at: u64, name: &str) -> Result<usize, ScriptFault>
    ensures { Gives
        (or_fault (ScriptFault.UnknownName at)
        (checks.place_of name.now (map (λ k. k.now) names.now.keys))) result }
{
    match names.get_index_of(name) {
        Some(place) => Ok(place),
        None => Err(ScriptFault::UnknownName(at)),
    }
}

/// The names that were introduced for one flow. No name is in both sets.
#[derive(Drop)]
struct FlowNames<'a> {
    emissions: IndexSet<&'a str>,
    subscribers: IndexSet<&'a str>,
}

impl<'a> FlowNames<'a> {
    fn new(alloc: Global) -> Self
        ensures { lists_of result ≡ checks.no_names }
    {
        FlowNames {
            emissions: IndexSet::new(alloc),
            subscribers: IndexSet::new(alloc),
        }
    }

    fn is_known(&self, name: &str) -> bool
        ensures { result ≡ checks.is_known name.now (lists_of self.now) }
    {
        self.emissions.contains(name) || self.subscribers.contains(name)
    }

    fn add_emission(&mut self, name: &'a str) -> Result<(), ScriptFault>
        requires { checks.is_known name.now (lists_of self.old) ≡ false }
        ensures added { OnOk result
            (lists_of self.new ≡ checks.naming_emission name.now (lists_of self.old)) }
        ensures fault { IfErr result (λ fault. fault ≡ ScriptFault.OutOfMemory) }
    {
        self.emissions.insert(name)?;
        Ok(())
    }

    fn add_subscriber(&mut self, name: &'a str) -> Result<(), ScriptFault>
        requires { checks.is_known name.now (lists_of self.old) ≡ false }
        ensures added { OnOk result
            (lists_of self.new ≡ checks.naming_subscriber name.now (lists_of self.old)) }
        ensures fault { IfErr result (λ fault. fault ≡ ScriptFault.OutOfMemory) }
    {
        self.subscribers.insert(name)?;
        Ok(())
    }
}

/// The names that the steps so far introduced, by the places of their flows. No name occurs twice.
#[derive(Drop)]
pub struct Names<'a> {
    flows: Vec<FlowNames<'a>>,
}

impl<'a> Names<'a> {
    /// Returns no names, for a script of `count` flows.
    pub fn new(alloc: Global, count: usize) -> Result<Self, ScriptFault>
        ensures none { IfOk result (λ names. name_rows names ≡ replicate count checks.no_names) }
        ensures fault { IfErr result (λ fault. fault ≡ ScriptFault.OutOfMemory) }
    {
        let mut flows = Vec::new(alloc);
        while flows.len() < count {
            flows.push(FlowNames::new(alloc))?;
        }
        Ok(Names { flows })
    }

    /// Returns which emission of a flow the name stands for.
    pub fn emission(&self, flow: usize, at: u64, name: &str) -> Result<usize, ScriptFault>
        ensures { Gives (checks.emission_at flow at name.now (name_rows self.now)) result }
    {
        match self.flows.get(flow) {
            Some(names) => place_in(&names.emissions, at, name),
            None => Err(ScriptFault::UnknownName(at)),
        }
    }

    /// Returns which subscriber of a flow the name stands for.
    pub fn subscriber(&self, flow: usize, at: u64, name: &str) -> Result<usize, ScriptFault>
        ensures { Gives (checks.subscriber_at flow at name.now (name_rows self.now)) result }
    {
        match self.flows.get(flow) {
            Some(names) => place_in(&names.subscribers, at, name),
            None => Err(ScriptFault::UnknownName(at)),
        }
    }

    fn is_known(&self, name: &str) -> bool
        ensures { result ≡ list_any (checks.is_known name.now) (name_rows self.now) }
    {
        for names in &self.flows {
            if names.is_known(name) {
                return true;
            }
        }
        false
    }

    pub fn add_emission(&mut self, flow: usize, at: u64, name: &'a str) -> Result<(), ScriptFault>
        ensures { Gives (checks.introduces_emission flow at name.now (name_rows self.old))
            (checks.then_names result (name_rows self.new)) }
    {
        if self.is_known(name) {
            return Err(ScriptFault::DuplicateName(at));
        }
        if flow < self.flows.len() {
            self.flows[flow].add_emission(name)?;
        }
        Ok(())
    }

    pub fn add_subscriber(&mut self, flow: usize, at: u64, name: &'a str) -> Result<(), ScriptFault>
        ensures { Gives (checks.introduces_subscriber flow at name.now (name_rows self.old))
            (checks.then_names result (name_rows self.new)) }
    {
        if self.is_known(name) {
            return Err(ScriptFault::DuplicateName(at));
        }
        if flow < self.flows.len() {
            self.flows[flow].add_subscriber(name)?;
        }
        Ok(())
    }
}
