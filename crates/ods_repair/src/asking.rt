//! Requests of a repair: one for each finding, in order. No protection denies them. The first refused request ends the repair.
ghost use Rattle.std.specs.Prelude.{◌≡◌, ◌≢◌, IfErr, OnErr, OnOk};
ghost use Rattle.ods_request.specs.declared.refusals.Refusal.{Refusal as Reason};
ghost use Rattle.ods_request.specs.declared.refusals.Refusal.TheVariants.{Denied};
ghost use Rattle.ods_state.specs.Outcome.{CanBeAsked};
ghost use Rattle.ods_filing.specs.Filed.{IsRefusedFor};
ghost use Rattle.ods_filing.specs.Led.{IsObeyed};
ghost use Rattle.ods_repair.specs.Asked.{AsksAll, IsMade, IsNotMade, IsObeyedBare, IsOfNames, StopsAt};

use crate::RepairFault;
use ods_base::FileId;
use ods_filing::Filing;
use ods_request::{Refusal, Request};

/// The requests of a repair for its findings.
pub(crate) trait Plan {
    ghost use Rattle.std.specs.Prelude.{◌≡◌};
    ghost use Rattle.ods_request.specs.declared.refusals.Refusal.{Refusal as Reason};
    ghost use Rattle.ods_request.specs.declared.requests.Request.{Request as Asked};
    ghost use Rattle.ods_state.specs.Outcome.{CanBeAsked};
    ghost use Rattle.ods_repair.specs.Asked.{IsOfNames};
    ghost use Rattle.ods_repair.specs.declared.fault.RepairFault.{RepairFault as Fault};

    /// What is found.
    type Item: Copy;

    /// The request for one finding.
    ghost request_of: { Self → Self.Item → Asked };

    /// The fault of the repair if the volume refuses the request for a finding.
    ghost fault_of: { Self.Item → Reason → Fault };

    /// The directory whose names the request for one changes.
    fn directory(&self, item: Self::Item) -> FileId
        ensures { IsOfNames result (request_of self.now item) };

    /// The request for one.
    fn request(&self, item: Self::Item) -> Request
        ensures is { result ≡ request_of self.now item }
        ensures asked { CanBeAsked result };

    /// Why the repair is not done, where the volume refuses the request for one.
    fn fault(&self, item: Self::Item, reason: Refusal) -> RepairFault
        ensures { result ≡ fault_of item reason };
}

/// Makes the request of each finding, in order. After a refusal, the requests before it are made.
pub(crate) fn ask_all<P: Plan>(
    filing: &mut Filing,
    plan: &P,
    all: &[P::Item],
) -> Result<(), RepairFault>
    ensures done { OnOk result (AsksAll (P.request_of plan.now) filing.old all.now filing.new) }
    ensures refused { IfErr result (λ why. (x : P.Item) × (reason : Reason) × (why ≡ P.fault_of x reason) × StopsAt (P.request_of plan.now) filing.old all.now filing.new x reason) }
{
    for i in 0..all.len() {
        if let Err(why) = ask(filing, plan, all[i]) {
            return Err(why);
        }
    }
    Ok(())
}

/// Makes the request of one, whatever the protection of its directory.
fn ask<P: Plan>(filing: &mut Filing, plan: &P, item: P::Item) -> Result<(), RepairFault>
    ensures done { OnOk result (IsMade filing.old (P.request_of plan.now item) filing.new) }
    ensures refused { IfErr result (λ why. (reason : Reason) × (why ≡ P.fault_of item reason) × (reason ≢ Denied) × IsNotMade filing.old (P.request_of plan.now item) filing.new reason) }
{
    match make_anyway(filing, plan.directory(item), &plan.request(item)) {
        Ok(()) => Ok(()),
        Err(reason) => Err(plan.fault(item, reason)),
    }
}

/// Makes a request for names of this directory, whatever the protection of the directory.
fn make_anyway(filing: &mut Filing, dir: FileId, request: &Request) -> Result<(), Refusal>
    requires asked { CanBeAsked request.now }
    requires names { IsOfNames dir request.now }
    ensures done { OnOk result (IsMade filing.old request.now filing.new) }
    ensures refused { IfErr result (λ reason. (reason ≢ Denied) × IsNotMade filing.old request.now filing.new reason) }
{
    match make(filing, request) {
        Ok(()) => Ok(()),
        Err(Refusal::Denied) => make_bare(filing, dir, request),
        Err(reason) => Err(reason),
    }
}

/// Makes a denied request while its directory denies nothing. Refused or not, the directory has its protection again, unless memory runs out.
fn make_bare(filing: &mut Filing, dir: FileId, request: &Request) -> Result<(), Refusal>
    requires asked { CanBeAsked request.now }
    requires names { IsOfNames dir request.now }
    requires denied { IsRefusedFor filing.old request.now Denied }
    ensures done { OnOk result (IsObeyedBare filing.old request.now filing.new) }
    ensures refused { IfErr result (λ reason. (reason ≢ Denied) × IsNotMade filing.old request.now filing.new reason) }
{
    // The volume is sound.
    let _ = filing.disk();
    let word = match filing.replace_protection(dir, 0) {
        Ok(word) => word,
        Err(reason) => return Err(reason),
    };
    let made = make(filing, request);
    match filing.replace_protection(dir, word) {
        Ok(_) => made,
        Err(reason) => Err(reason),
    }
}

/// Makes a request whose answer is not wanted.
fn make(filing: &mut Filing, request: &Request) -> Result<(), Refusal>
    requires { CanBeAsked request.now }
    ensures done { OnOk result (IsObeyed filing.old request.now filing.new) }
    ensures refused { IfErr result (IsRefusedFor filing.old request.now) }
    ensures unchanged { OnErr result (filing.new ≡ filing.old) }
{
    let _answer = filing.request(request)?;
    Ok(())
}
