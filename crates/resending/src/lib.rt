// A resend puts on its link what that link was first sent: the theorem and its laws stand in specs/.
#![tactic(auto)]
