//! What the fields of a plan that are 0 describe.
ghost use Rattle.std.specs.Prelude.{◌≡◌, [], false};
ghost use Rattle.etherparse.specs.BuiltSteps.{ipv4_between, ipv6_between, tag_of};
ghost use Rattle.etherparse_structs.specs.Plan.{inner_tag_in, outer_tag_in};
ghost use Rattle.etherparse_structs.specs.PlannedExtensions.{no_extensions};
ghost use Rattle.etherparse_structs.specs.PlannedIp.{ip_in};
ghost use Rattle.etherparse_structs.specs.declared.plan.EpPlan.{EpPlan};

/// Where the other fields of IP headers and tags are 0, they are those that the builder has by the
/// steps that take addresses, hops and identifiers alone.
#[tactic(auto, unfolding(crate::specs::PlannedIp::ip_in, crate::specs::PlannedExtensions::ipv4_exts_in, crate::specs::PlannedExtensions::ipv6_exts_in))]
pub fn default_headers()
    ensures ipv4 { (p : EpPlan) → ip_in (record p {
      ip_version = 4;
      ipv4_options_len = 0;
      identification = 0;
      fragment_offset = 0;
      dscp = 0;
      ecn = 0;
      may_fragment = false;
      more_fragments = false;
    }) no_extensions [] ≡ ipv4_between p.ipv4_source p.ipv4_destination p.hops }
    ensures ipv6 { (p : EpPlan) → ip_in (record p {
      ip_version = 6;
      traffic_class = 0;
      flow_label = 0;
    }) no_extensions [] ≡ ipv6_between p.ipv6_source p.ipv6_destination p.hops }
    ensures tags { (p : EpPlan) → let q : EpPlan = record p {
      outer_priority = 0;
      inner_priority = 0;
      outer_drop_eligible = false;
      inner_drop_eligible = false;
    } in (outer_tag_in q ≡ tag_of p.outer_vlan_id) × (inner_tag_in q ≡ tag_of p.inner_vlan_id) }
{}
